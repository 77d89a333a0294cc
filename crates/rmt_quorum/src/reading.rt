//! What the znodes of a tree say of a quorum.
ghost use Rattle.std.specs.Prelude.{◌≡◌, ◌<◌, ◌≤◌, ◌^◌, ◌∷◌, ◌++◌, ℕ, suc, List, [], IfOk};
ghost use Rattle.std.specs.declared.option.Option.TheVariants.{Some};
ghost use Rattle.std.specs.Option.{option_map};
ghost use Rattle.rmt_names.specs.Names.{Name, IsName};
ghost use Rattle.rmt_names.specs.Texts.{text_of};
ghost use Rattle.rmt_model.specs.Quorum.{Quorum};
ghost use Rattle.rmt_table_model.specs.Nodes.{noted_count};
ghost use Rattle.rmt_quorum.specs.QuorumNodes.{HasQuorum, spaces};

use rmt_names::{PartName, parse};
use rmt_tree::Tree;
use rmt_znodes::Znode;
use std::alloc::{AllocError, Global};
use std::str;

/// The part whose name is these bytes.
fn part_of_text(bytes: &[u8]) -> Option<PartName>
    ensures { (a : Name) → IsName a → text_of a ≡ bytes.now → result ≡ Some a }
{
    match str::from_utf8(bytes) {
        Ok(text) => parse(text),
        Err(_) => None,
    }
}

/// The part whose name is the bytes before the first space.
fn part_before_space(bytes: &[u8]) -> Option<PartName>
    ensures { (a : Name) (more : List ℕ) → IsName a → bytes.now ≡ text_of a ++ 32 ∷ more → result ≡ Some a }
{
    let mut end = 0;
    'bytes: while end < bytes.len() {
        if bytes[end] == b' ' {
            return part_of_text(&bytes[..end]);
        }
        end += 1;
    }
    None
}

/// 1 for a space, 0 for another byte.
fn count_space(byte: u8) -> usize
    ensures value { result ≡ spaces (byte ∷ []) }
    ensures most { result ≤ 1 }
{
    if byte == b' ' {
        return 1;
    }
    0
}

/// How many of the bytes are spaces.
fn count_spaces(bytes: &[u8]) -> usize
    ensures { result ≡ spaces bytes.now }
{
    let mut count = 0;
    'bytes: for byte in bytes {
        count += count_space(*byte);
    }
    count
}

/// How many replicas the text of a pending part has.
fn noted_of_text(bytes: &[u8]) -> u32
    ensures { (n : ℕ) → n < 2 ^ 32 → spaces bytes.now ≡ suc n → result ≡ n }
{
    let count = count_spaces(bytes).saturating_sub(1);
    u32::try_from(count).unwrap_or(0)
}

/// The part that waits for its quorum; `None` where none does. At an error no memory was left.
pub fn pending(tree: &Tree, alloc: Global) -> Result<Option<PartName>, AllocError>
    ensures { (q : Quorum) → HasQuorum tree.now q → IfOk result (λ part. part ≡ option_map (λ p. p.part) q.pending) }
{
    let path = Znode::Status.path(alloc)?;
    match tree.get(&path) {
        Some((text, _)) => Ok(part_before_space(text.as_bytes())),
        None => Ok(None),
    }
}

/// The last part whose quorum was met; `None` where there is none. At an error no memory was left.
pub fn last(tree: &Tree, alloc: Global) -> Result<Option<PartName>, AllocError>
    ensures { (q : Quorum) → HasQuorum tree.now q → IfOk result (λ part. part ≡ q.last) }
{
    let path = Znode::LastPart.path(alloc)?;
    match tree.get(&path) {
        Some((text, _)) => Ok(part_of_text(text.as_bytes())),
        None => Ok(None),
    }
}

/// How many replicas have noted the part that waits for its quorum; 0 where none waits. At an error no memory was left.
pub fn noted(tree: &Tree, alloc: Global) -> Result<u32, AllocError>
    ensures { (q : Quorum) → HasQuorum tree.now q → IfOk result (λ count. count ≡ noted_count q.pending) }
{
    let path = Znode::Status.path(alloc)?;
    match tree.get(&path) {
        Some((text, _)) => Ok(noted_of_text(text.as_bytes())),
        None => Ok(0),
    }
}
