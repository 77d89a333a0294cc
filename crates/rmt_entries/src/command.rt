ghost use Rattle.std.specs.Prelude.{◌≡◌, ◌++◌, OnOk};
ghost use Rattle.rmt_bytes.specs.Decoding.{DecodesPrefix};
ghost use Rattle.rmt_entries.specs.EntryBytes.{command_bytes};
ghost use Rattle.rmt_entries.specs.EntryDecoding.{decode_command};

use crate::encoded::{put_list, read_list};
use crate::filter::{DEEPEST, put_filter, read_filter};
use rmt_bytes::DecodeError;
use rmt_values::{CheckedMutation, CheckedRight};
use std::alloc::{AllocError, Global};

/// Appends a command.
pub fn put_command(out: &mut Vec<u8>, command: &CheckedMutation) -> Result<(), AllocError>
    ensures { OnOk result (out.new.items ≡ out.old.items ++ command_bytes command.now) }
{
    match command {
        CheckedMutation::Update { sets, filter } => {
            out.push(1)?;
            put_list(out, sets.as_slice())?;
            put_filter(out, filter)?;
            Ok(())
        }
        CheckedMutation::Delete { filter } => {
            out.push(2)?;
            put_filter(out, filter)?;
            Ok(())
        }
    }
}

/// Decodes a command, and gives back the rest.
#[tactic(auto, unfolding(crate::specs::EntryDecoding::decode_command))]
pub fn read_command(alloc: Global, bytes: &[u8]) -> Result<(CheckedMutation, &[u8]), DecodeError>
    ensures { DecodesPrefix result (decode_command bytes.now) }
{
    match bytes {
        [1, rest @ ..] => {
            let (sets, rest) = read_list::<(u16, CheckedRight)>(alloc, rest)?;
            if sets.len() < 1 {
                return Err(DecodeError::Malformed);
            }
            let (filter, rest) = read_filter(alloc, DEEPEST, rest)?;
            Ok((CheckedMutation::Update { sets, filter }, rest))
        }
        [2, rest @ ..] => {
            let (filter, rest) = read_filter(alloc, DEEPEST, rest)?;
            Ok((CheckedMutation::Delete { filter }, rest))
        }
        _ => Err(DecodeError::Malformed),
    }
}
