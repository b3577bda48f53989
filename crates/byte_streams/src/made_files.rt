//! Files of a list and a certificate that are made beside their names, and put there once all is written.

ghost use Rattle.std.specs.Prelude.{IfErr, IfNone, IfOk, OnErr, OnOk};
ghost use Rattle.byte_streams.specs.Deeds.{Did};
ghost use Rattle.byte_streams.specs.MadeFiles.{AreSynced, AreWhole, BothLead, MakesBoth, NotMadeUnder, PutsBoth, Settles};
ghost use Rattle.byte_streams.specs.MadeFiles.{SettlesWhole, Undid, both_removed};

use crate::faults::FileFault;
use crate::files::FileSystem;
use crate::refusals::Refusal;
use std::alloc::Global;

/// The names of the files of a list and a certificate.
#[derive(Clone, Copy)]
pub struct ProductNames<'a> {
    pub list: &'a str,
    pub certificate: &'a str,
}

/// The files of a list and a certificate, made beside their names.
#[derive(Drop)]
pub struct MadeFiles<W> {
    pub list: W,
    pub certificate: W,
}

/// The name beside which no file could be made, and why.
#[derive(Drop)]
pub struct NotMade<'a> {
    pub name: &'a str,
    pub fault: FileFault,
}

/// Makes both files, first that of the list, or none of them.
///
/// An `Err` is `NotMade` with the name of the first that can't be made. What was made before is removed.
pub fn make_both<'a, S: FileSystem>(
    alloc: Global,
    names: &ProductNames<'a>,
    system: &mut S,
) -> Result<MadeFiles<S::Writer>, NotMade<'a>>
    ensures made { IfOk result (MakesBoth S.FileSystem names.now system.old system.new) }
    ensures undone { OnErr result (Undid names.now.list.now names.now.certificate.now S.does system.old system.new) }
    ensures name { IfErr result (λ failed. NotMadeUnder names.now.list.now names.now.certificate.now S.does system.old
        system.new failed.name.now) }
{
    let list = match system.make(alloc, names.list) {
        Ok(list) => list,
        Err(fault) => {
            return Err(NotMade {
                name: names.list,
                fault,
            });
        }
    };
    match system.make(alloc, names.certificate) {
        Ok(certificate) => Ok(MadeFiles { list, certificate }),
        Err(fault) => {
            system.remove(list, names.list);
            Err(NotMade {
                name: names.certificate,
                fault,
            })
        }
    }
}

/// The name under which a file could not be put, and why.
#[derive(Drop)]
pub struct NotPut<'a> {
    pub name: &'a str,
    pub refusal: Refusal,
}

/// Why the files are not under their names.
#[derive(Drop)]
pub enum Unsettled<'a, E> {
    /// Not all was written, and both were removed.
    Stopped(E),
    /// One could not be put there.
    NotPut(NotPut<'a>),
    /// Both were put there, but now this name leads to another file.
    Replaced(&'a str),
}

/// Puts both files under their names, if all was written into them: first it makes sure that both are on the disk, then
/// it puts the list, then the certificate, and then it looks whether the names lead to these files.
///
/// An `Err` is
///
/// - `Stopped`, where not all was written: both are removed;
/// - `NotPut`, where a file can't be synced or the list can't be put under its name: both are removed; or where the
///   certificate can't be put under its name: it is removed;
/// - `Replaced`, where all was done, but a name leads to another file.
pub fn settle<'a, S: FileSystem, E>(
    made: MadeFiles<S::Writer>,
    names: &ProductNames<'a>,
    system: &mut S,
    written: Result<(), E>,
) -> Result<(), Unsettled<'a, E>>
    requires { OnOk written (AreWhole S.FileSystem S.Writer.written names.now made) }
    ensures { Settles S.FileSystem S.Writer.written names.now made system.old system.new written result }
{
    match written {
        Ok(()) => put_whole(made, names, system),
        Err(fault) => {
            remove_both(made, names, system);
            Err(Unsettled::Stopped(fault))
        }
    }
}

// Puts both under their names, once both lie on the disk, and looks whether the names lead to them.
fn put_whole<'a, S: FileSystem, E>(
    made: MadeFiles<S::Writer>,
    names: &ProductNames<'a>,
    system: &mut S,
) -> Result<(), Unsettled<'a, E>>
    requires { AreWhole S.FileSystem S.Writer.written names.now made }
    ensures { SettlesWhole S.FileSystem S.Writer.written names.now made system.old system.new result }
{
    if let Err(refused) = sync_both(&made, names, system) {
        remove_both(made, names, system);
        return Err(Unsettled::NotPut(refused));
    }
    match put_both(made, names, system) {
        Ok(put) => match name_of_another(&put, names, system) {
            None => Ok(()),
            Some(name) => Err(Unsettled::Replaced(name)),
        },
        Err(refused) => Err(Unsettled::NotPut(refused)),
    }
}

// Removes both.
fn remove_both<S: FileSystem>(made: MadeFiles<S::Writer>, names: &ProductNames<'_>, system: &mut S)
    ensures { Did S.does system.old (both_removed names.now.list.now names.now.certificate.now) system.new }
{
    system.remove(made.list, names.list);
    system.remove(made.certificate, names.certificate);
}

// Has both written to the disk.
fn sync_both<'a, S: FileSystem>(
    made: &MadeFiles<S::Writer>,
    names: &ProductNames<'a>,
    system: &S,
) -> Result<(), NotPut<'a>>
    ensures { OnOk result (AreSynced S.synced made.now) }
{
    if let Err(refusal) = system.sync(&made.list) {
        return Err(NotPut {
            name: names.list,
            refusal,
        });
    }
    match system.sync(&made.certificate) {
        Ok(()) => Ok(()),
        Err(refusal) => Err(NotPut {
            name: names.certificate,
            refusal,
        }),
    }
}

// Puts both under their names, with the texts that they took, the list first. Where the list can't be put there, both
// are removed, and where the certificate can't, that is.
fn put_both<'a, S: FileSystem>(
    made: MadeFiles<S::Writer>,
    names: &ProductNames<'a>,
    system: &mut S,
) -> Result<MadeFiles<S::Writer>, NotPut<'a>>
    requires whole { AreWhole S.FileSystem S.Writer.written names.now made }
    requires synced { AreSynced S.synced made }
    ensures { PutsBoth S.FileSystem S.Writer.written names.now made system.old system.new result }
{
    let list = match system.put(made.list, names.list) {
        Ok(list) => list,
        Err(refusal) => {
            system.remove(made.certificate, names.certificate);
            return Err(NotPut {
                name: names.list,
                refusal,
            });
        }
    };
    match system.put(made.certificate, names.certificate) {
        Ok(certificate) => Ok(MadeFiles { list, certificate }),
        Err(refusal) => Err(NotPut {
            name: names.certificate,
            refusal,
        }),
    }
}

// The name that doesn't lead to the file that was put under it, if one doesn't.
fn name_of_another<'a, S: FileSystem>(
    put: &MadeFiles<S::Writer>,
    names: &ProductNames<'a>,
    system: &S,
) -> Option<&'a str>
    ensures { IfNone result (BothLead S.FileSystem names.now system.now put.now) }
{
    if !system.leads_to(names.list, &put.list) {
        return Some(names.list);
    }
    if !system.leads_to(names.certificate, &put.certificate) {
        return Some(names.certificate);
    }
    None
}
