//! Certificates are read and written.

use cert_text::{certificate_laws, lemma_laws};
use cert_tree::head_laws;
use std::alloc::{AllocError, Global};
use std::test::Fail;
use test_samples::{
    TURNING_TRIANGLE_CERTIFICATE, TWIN_TILES_CERTIFICATE, certificate_again, is_lemma_line,
    lemma_of,
};

// Each kind of node, and a symmetry with a mirror and colours that are letters.
const EACH_NODE: &[u8] =
    b"certificate 1\nsymmetries 2\nsymmetry 3 - cells colours z a tiles\nsymmetry 0 + cells 99 colours tiles 99\nlemmas 2\nlemma 0 prefix 99:99.3 0:0.0 tree t 99 2 c 99 3 d 99 e 99 f 999999 s 999999\nlemma 1 prefix tree i 999999 1023\nend\n";

const ONE_CELL: &[u8] =
    b"certificate 1\nsymmetries 0\nlemmas 1\nlemma 0 prefix tree c 0 1 f 0\nend\n";

const ONE_CELL_IN_VERSION_2: &[u8] =
    b"certificate 2\nsymmetries 0\nlemmas 1\nlemma 0 prefix tree c 0 1 f 0\nend\n";

const VERSION_1: &[u8] = b"certificate 1\n";

const VERSION_2: &[u8] = b"certificate 2\n";

// Numbers that version 2 alone has.
const LARGE_CELL: &[u8] =
    b"certificate 2\nsymmetries 0\nlemmas 1\nlemma 0 prefix tree d 100\nend\n";

const LARGE_SYMMETRY: &[u8] =
    b"certificate 2\nsymmetries 1\nsymmetry 0 + cells 255 colours tiles 255\nlemmas 0\nend\n";

const LARGE_PREFIX: &[u8] =
    b"certificate 2\nsymmetries 0\nlemmas 1\nlemma 0 prefix 255:255.3 tree t 255 1 e 255\nend\n";

// A text, and what is written of it: in version 1 where that spells it.
const TEXTS: [(&[u8], &[u8]); 7] = [
    (TWIN_TILES_CERTIFICATE, TWIN_TILES_CERTIFICATE),
    (TURNING_TRIANGLE_CERTIFICATE, TURNING_TRIANGLE_CERTIFICATE),
    (EACH_NODE, EACH_NODE),
    (LARGE_CELL, LARGE_CELL),
    (LARGE_SYMMETRY, LARGE_SYMMETRY),
    (LARGE_PREFIX, LARGE_PREFIX),
    (ONE_CELL_IN_VERSION_2, ONE_CELL),
];

// A certificate with this first line, of a tree of `branches` branches below one another and a leaf.
fn deep(alloc: Global, first_line: &[u8], branches: u32) -> Result<Vec<u8>, AllocError> {
    let mut text = first_line.to_vec(alloc)?;
    text.extend_from_slice(b"symmetries 0\nlemmas 1\nlemma 0 prefix tree")?;
    for _ in 0..branches {
        text.extend_from_slice(b" c 0 1")?;
    }
    text.extend_from_slice(b" f 0\nend\n")?;
    Ok(text)
}

// Whether a certificate with `branches` branches below one another is written with this first line.
fn is_deep_written(alloc: Global, branches: u32, first_line: &[u8]) -> Result<bool, Fail> {
    let text = deep(alloc, VERSION_2, branches)?;
    let wanted = deep(alloc, first_line, branches)?;
    Ok(certificate_again(alloc, &text)? == wanted)
}

const DEPTHS: [(u32, &[u8]); 3] = [(100, VERSION_1), (101, VERSION_2), (256, VERSION_2)];

#[test]
fn writes_deep_trees_that_were_read(rt: HostRuntime) -> Result<(), Fail> {
    for (branches, first_line) in DEPTHS.iter() {
        assert!(rt; is_deep_written(rt.alloc(), *branches, first_line)?);
    }
    Ok(())
}

const LEMMA: &[u8] = b"lemma 1 prefix tree c 0 2 s 0 i 0 0\n";

// Whether a lemma is written as it was read.
fn is_lemma_written(alloc: Global) -> Result<bool, Fail> {
    let lemma = lemma_of(alloc, LEMMA)?;
    Ok(is_lemma_line(alloc, &lemma, LEMMA)?)
}

#[test]
fn writes_certificates_that_were_read(rt: HostRuntime) -> Result<(), Fail> {
    for (text, wanted) in TEXTS.iter() {
        assert!(rt; certificate_again(rt.alloc(), text)?.as_slice() == *wanted);
    }
    assert!(rt; is_lemma_written(rt.alloc())?);
    certificate_laws();
    lemma_laws();
    head_laws();
    Ok(())
}
