//! Disks before the machine runs.
ghost use Rattle.std.specs.Prelude.{◌≡◌, ◌<◌, false, length, option_map, None, IfOk, IfErr};
ghost use Rattle.block_device.specs.DiskSeen.{Reads, Writes};
ghost use Rattle.block_device.specs.Opening.{Opens, IsDiskFault};
ghost use Rattle.block_device.specs.Pairs.{CanPair};

use crate::{Disk, NumberedDisk, OpenFault, Pairing, Rack, RackFault, Spec};
use std::alloc::Global;
use std::marker::Model;
use thiserror::Error;

/// Why no disk was opened.
#[derive(Debug, PartialEq, Eq, Drop, Error)]
pub enum AttachFault {
    /// The rack failed, and has counted a fault.
    #[error("{0}")]
    Failed(OpenFault),
    /// There is no memory left.
    #[error("out of memory")]
    Memory,
}

/// An attached disk before the machine runs, with its number. Its faults say what was counted.
#[derive(Drop)]
pub struct Unopened<D: Disk> {
    disk: NumberedDisk<D>,
}

impl<D: Disk> Model for Unopened<D> {
    ghost use Rattle.block_device.specs.declared.numbered.NumberedDisk.{NumberedDisk};

    ghost Value = { NumberedDisk D };

    ghost view = { λ d. d.disk };
}

impl<D: Disk> Unopened<D> {
    /// Attaches the disk of a spec.
    pub fn attach<R: Rack<D = D>>(rack: &mut R, spec: &Spec) -> Result<Unopened<D>, AttachFault>
        ensures { Opens (R.seen rack.old) (R.seen rack.new) spec.now D.seen result }
    {
        let number = spec.number();
        match rack.attach(spec) {
            Ok(disk) => Ok(Unopened {
                disk: NumberedDisk { number, disk },
            }),
            Err(RackFault::Failed) => Err(AttachFault::Failed(OpenFault::of_rack(number))),
            Err(RackFault::Memory) => Err(AttachFault::Memory),
        }
    }

    // The disk under a number.
    fn of(number: u32, disk: D) -> Unopened<D>
        ensures { result ≡ record { number = number; disk = disk } }
    {
        Unopened {
            disk: NumberedDisk { number, disk },
        }
    }

    /// The number of the disk.
    pub fn number(&self) -> u32
        ensures { result ≡ self.now.number }
    {
        self.disk.number
    }

    /// How many blocks the disk has.
    pub fn blocks(&self) -> u32
        ensures { result ≡ (D.seen self.now.disk).size }
    {
        self.disk.disk.blocks()
    }

    /// Reads a block, as the disk does.
    pub fn read(&mut self, block: u32, into: &mut [u8]) -> Result<(), OpenFault>
        requires block { block < (D.seen self.old.disk).size }
        requires size { length into.old ≡ 4096 }
        ensures reads { Reads (D.seen self.old.disk) (D.seen self.new.disk) block into.new result }
        ensures fault { IfErr result
            (IsDiskFault self.old.number (D.seen self.old.disk) (D.seen self.new.disk)) }
        // What stays.
        ensures number { self.new.number ≡ self.old.number }
    {
        match self.disk.read(block, into) {
            Ok(()) => Ok(()),
            Err(fault) => Err(OpenFault::of_disk(fault)),
        }
    }

    /// Writes a block, as the disk does.
    pub fn write(&mut self, block: u32, from: &[u8]) -> Result<(), OpenFault>
        requires block { block < (D.seen self.old.disk).size }
        requires size { length from.now ≡ 4096 }
        ensures writes { Writes
            (D.seen self.old.disk) (D.seen self.new.disk) block from.now result }
        ensures fault { IfErr result
            (IsDiskFault self.old.number (D.seen self.old.disk) (D.seen self.new.disk)) }
        // What stays.
        ensures number { self.new.number ≡ self.old.number }
    {
        match self.disk.write(block, from) {
            Ok(()) => Ok(()),
            Err(fault) => Err(OpenFault::of_disk(fault)),
        }
    }

    /// The disk that stands for this one, or for this one and another: mirrored or striped. It has this one's
    /// number. The error is want of memory, and gives the disks back.
    pub fn pair<P: Pairing<D>>(
        self,
        alloc: Global,
        other: Option<Unopened<D>>,
        mirror: bool,
    ) -> Result<Unopened<P>, (Unopened<D>, Option<Unopened<D>>)>
        requires { CanPair D.seen self.disk (option_map (λ d. d.disk) other) mirror }
        ensures pair { IfOk result (λ pair.
            P.pairs self.disk (option_map (λ d. d.disk) other) mirror pair.disk) }
        ensures number { IfOk result (λ pair. pair.number ≡ self.number) }
        ensures back { IfErr result (λ disks. disks ≡ (self, other)) }
    {
        let NumberedDisk { number, disk } = self.disk;
        let (second, other) = match other {
            Some(other) => (other.disk.number, Some(other.disk.disk)),
            None => (number, None),
        };
        match P::pair(alloc, disk, other, mirror) {
            Ok(disk) => Ok(Unopened::of(number, disk)),
            Err((disk, other)) => Err((
                Unopened::of(number, disk),
                other.map(|disk| Unopened::of(second, disk)),
            )),
        }
    }

    /// The disk that stands for this one alone, under its number. It takes no memory.
    pub fn alone<P: Pairing<D>>(self) -> Unopened<P>
        ensures stands { P.pairs self.disk None false result.disk }
        ensures number { result.number ≡ self.number }
    {
        let NumberedDisk { number, disk } = self.disk;
        Unopened::of(number, P::alone(disk))
    }

    /// The disk as it is.
    pub fn into_disk(self) -> D
        ensures { result ≡ self.disk }
    {
        self.disk.disk
    }
}
