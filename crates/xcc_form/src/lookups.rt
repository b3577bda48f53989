//! Looks up items and options by number in the engine's own lists, so that what is found is open.

ghost use Rattle.std.specs.Prelude.{◌≡◌, IfSome};
ghost use Rattle.xcc_form.specs.Options.{cover_of};
ghost use Rattle.xcc_form.specs.Chosen.{IsUncovered};
ghost use Rattle.xcc_form.specs.Clashes.{IsOpen, IsOpenAt};

use crate::open_options::OpenOptions;

/// Returns the item with this number, if it is primary and not covered. It looks at each such item up to this one.
pub fn uncovered_item<E: OpenOptions>(engine: &E, number: u32) -> Option<u32>
    ensures number { IfSome result (λ item. item ≡ number) }
    ensures uncovered { let s = E.selection engine.now in IfSome result (IsUncovered (cover_of s.compiled) s.chosen) }
{
    let mut next = engine.next_item(None);
    while let Some(item) = next {
        if item == number {
            return Some(item);
        }
        next = engine.next_item(Some(item));
    }
    None
}

/// Returns the option with this number, if it is an open option of the item. It looks at each of these up to this one.
pub fn open_option<E: OpenOptions>(engine: &E, item: u32, number: u32) -> Option<u32>
    requires { let s = E.selection engine.now in IsUncovered (cover_of s.compiled) s.chosen item }
    ensures number { IfSome result (λ option. option ≡ number) }
    ensures open { let s = E.selection engine.now in IfSome result (IsOpen (cover_of s.compiled) s.chosen) }
{
    let mut next = engine.next_option(item, None);
    while let Some(option) = next {
        if option == number {
            return Some(option);
        }
        next = engine.next_option(item, Some(option));
    }
    None
}

/// Returns the open option of an item that has `before` open options of the item before it, if there is one.
pub fn option_behind<E: OpenOptions>(engine: &E, item: u32, before: u32) -> Option<u32>
    requires { let s = E.selection engine.now in IsUncovered (cover_of s.compiled) s.chosen item }
    ensures { let s = E.selection engine.now in IfSome result (IsOpenAt (cover_of s.compiled) s.chosen item) }
{
    let mut left = before;
    let mut next = engine.next_option(item, None);
    while let Some(option) = next {
        if left == 0 {
            return Some(option);
        }
        left -= 1;
        next = engine.next_option(item, Some(option));
    }
    None
}
