//! Laws of trees, their heads and assembly. The functions do nothing: their contracts say what holds.

ghost use Rattle.cert_tree.specs.Assembly.{IsOneInAnyOrder};
ghost use Rattle.cert_tree.specs.Certificate.{piece_number};
ghost use Rattle.cert_tree.specs.HeadLaws.{HaveOneReading, AreReadBack, AreOfTheirTrees};

/// The laws of trees and their heads (nodes without their children, in preorder); the call does nothing.
///
/// - The heads of one tree are never the beginning of those of another, whatever follows them.
/// - A tree is read back from its heads.
/// - Heads that are each followed by their children are the heads of the trees that are read from them.
pub fn head_laws()
    ensures one_reading { HaveOneReading }
    ensures back { AreReadBack }
    ensures whole { AreOfTheirTrees }
{}

/// A law; the call does nothing. Whatever order lemmas come in, they make the same certificate or have the same first
/// fault.
pub fn assembly_laws()
    ensures pieces { IsOneInAnyOrder piece_number }
{}
