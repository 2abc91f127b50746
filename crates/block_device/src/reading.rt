//! Reading a source, and writing to a sink, as a whole.
ghost use Rattle.std.specs.Prelude.{◌≡◌, ◌<◌, ◌≤◌, [], length, vec_len, OnOk, OnErr, IfOk, IfSome, IsErrOf};
ghost use Rattle.block_device.specs.Counts.{HasRisen, CountsFailures};
ghost use Rattle.block_device.specs.StreamSeen.{Came, TookSome, AppendedPart, text_with_more, ReadsNext};

use crate::{Failed, Sink, Source};
use std::alloc::{AllocError, Global};
use thiserror::Error;

/// Why a source was not read.
#[derive(Clone, Copy, Debug, PartialEq, Eq, Drop, Error)]
pub enum ReadFault {
    /// The source failed, and has counted a fault.
    #[error("the source failed")]
    Failed,
    /// There is no memory left.
    #[error("out of memory")]
    Memory,
}

impl From<AllocError> for ReadFault {
    ghost use Rattle.std.specs.Prelude.{◌≡◌};
    ghost use Rattle.block_device.specs.declared.reading.ReadFault.TheVariants.{Memory};

    ghost from_gives = { λ _ fault. fault ≡ Memory };

    fn from(_: AllocError) -> ReadFault {
        ReadFault::Memory
    }
}

impl From<Failed> for ReadFault {
    ghost use Rattle.std.specs.Prelude.{◌≡◌};
    ghost use Rattle.block_device.specs.declared.reading.ReadFault.TheVariants as faults;

    ghost from_gives = { λ _ fault. fault ≡ faults.Failed };

    fn from(_: Failed) -> ReadFault {
        ReadFault::Failed
    }
}

/// Reads a source to its end, or until `limit` bytes came, at most 4096 at a time. After an error the
/// bytes that were read are lost.
pub fn read_to_limit<S: Source>(
    alloc: Global,
    source: &mut S,
    limit: usize,
) -> Result<Vec<u8>, ReadFault>
    // Ok: the next bytes of the source, to its end where the limit wasn't reached.
    ensures bytes { IfOk result (λ all.
        Came (S.seen source.old).rest all.items (S.seen source.new).rest) }
    ensures limit { IfOk result (λ all. vec_len all ≤ limit) }
    ensures end { IfOk result (λ all.
        vec_len all < limit → IfSome (S.seen source.new).rest (λ rest. rest ≡ [])) }
    // An error: some bytes were taken, and `Failed` comes only with a fault counted.
    ensures taken { OnErr result
        (TookSome (S.seen source.old).rest (S.seen source.new).rest limit) }
    ensures failed { IsErrOf result ReadFault.Failed
        → HasRisen (S.seen source.old).faults (S.seen source.new).faults }
    ensures later { (S.seen source.old).faults ≤ (S.seen source.new).faults }
    // Every other answer counts no fault.
    ensures steady { OnOk result ((S.seen source.new).faults ≡ (S.seen source.old).faults) }
    ensures memory { IsErrOf result ReadFault.Memory
        → (S.seen source.new).faults ≡ (S.seen source.old).faults }
{
    let mut all = Vec::new(alloc);
    let mut piece = [0; 4096];
    while all.len() < limit {
        let count = read_piece(source, &mut piece, limit - all.len())?;
        if count == 0 {
            return Ok(all);
        }
        all.extend_from_slice(&piece[..count])?;
    }
    Ok(all)
}

// Reads the next bytes into the front of `into`, at most so many.
fn read_piece<S: Source>(source: &mut S, into: &mut [u8], most: usize) -> Result<usize, Failed>
    requires { 0 < most }
    ensures reads { ReadsNext (S.seen source.old) (S.seen source.new) into.new result }
    ensures most { IfOk result (λ count. count ≤ most) }
{
    if into.len() <= most {
        return source.read(into);
    }
    source.read(&mut into[..most])
}

/// Writes all of a text to a sink, or fails where the sink does. Each turn takes at least one byte.
pub fn write_all<K: Sink>(sink: &mut K, text: &[u8]) -> Result<(), Failed>
    ensures whole { OnOk result
        ((K.seen sink.new).written ≡ text_with_more (K.seen sink.old).written text.now) }
    ensures part { OnErr result
        (AppendedPart (K.seen sink.old).written (K.seen sink.new).written text.now) }
    ensures cause { CountsFailures (K.seen sink.old).faults (K.seen sink.new).faults result }
{
    let mut done = 0;
    while done < text.len() {
        done += sink.write(&text[done..])?;
    }
    Ok(())
}
