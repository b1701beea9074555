//! What is hashed under which key.
use cx_base::{Answer, NoMemory, Path, SeenEntry};
use cx_table::NameKey;
use sha2::{Digest, Sha256};
use std::alloc::Global;

/// The key for paths, which the words give.
pub(crate) fn key_of_words(alloc: Global, words: &[Path]) -> Result<NameKey, NoMemory> {
    let mut text = Vec::new(alloc);
    for word in words {
        text.extend_from_slice(word.as_bytes())?;
        text.push(0)?;
    }
    Ok(NameKey::of(text.as_slice()))
}

/// The key for names, which all the bytes that were read give: whoever picks the names of one file
/// so that they collide under a key, has another key then.
pub(crate) fn key_of_answers(alloc: Global, seen: &[SeenEntry]) -> Result<NameKey, NoMemory> {
    let mut digests = Vec::new(alloc);
    for entry in seen {
        if let Answer::Present(bytes) = &entry.answer {
            let digest: [u8; 32] = Sha256::digest(bytes.as_slice());
            digests.extend_from_slice(&digest)?;
        }
    }
    Ok(NameKey::of(digests.as_slice()))
}
