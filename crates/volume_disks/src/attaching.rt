//! Volumes are attached.
ghost use Rattle.std.specs.Prelude.{◌≡◌, ◌≢◌, ◌≤◌, ◌+◌, option_map, Some, None, IfOk, IfErr, OnOk};
ghost use Rattle.std.specs.Option.{ForSome};
ghost use Rattle.block_device.specs.Opening.{Opens};
ghost use Rattle.block_device.specs.Pairs.{CanPair};
ghost use Rattle.block_device.specs.RackSeen.{spec_number};
ghost use Rattle.block_device.specs.declared.rack.Spec.{Spec};
ghost use Rattle.volume_disks.specs.Singles.{single_seen};
ghost use Rattle.volume_disks.specs.Volumes.{HasTwoNumbers, IsVolume, StopsVolume, attached_count, first_spec, second_spec, spec_count, stop_of};
ghost use Rattle.volume_disks.specs.declared.stops.VolumeStop.TheVariants.{Memory};

use crate::single::Single;
use crate::sizes::size_fault;
use crate::stops::{Unattached, VolumeStop};
use crate::volume_spec::VolumeSpec;
use block_device::{AttachFault, Disk, Pairing, Rack, Spec, Unopened};
use std::alloc::Global;

// Why a volume isn't attached where one of its disks isn't.
fn stop_of(fault: AttachFault) -> VolumeStop
    ensures { result ≡ stop_of fault }
{
    match fault {
        AttachFault::Failed(fault) => VolumeStop::Failed(fault),
        AttachFault::Memory => VolumeStop::Memory,
    }
}

// The volume of these two disks. The error is want of memory.
fn paired<D: Disk, P: Pairing<D>>(
    alloc: Global,
    first: Unopened<D>,
    second: Unopened<D>,
    mirror: bool,
) -> Result<Unopened<P>, Unattached<D>>
    requires { CanPair D.seen first.disk (Some second.disk) mirror }
    ensures stands { IfOk result (λ volume.
        P.pairs first.disk (Some second.disk) mirror volume.disk) }
    ensures number { IfOk result (λ volume. volume.number ≡ first.number) }
    ensures back { IfErr result (λ u.
        u ≡ record { why = Memory; first = Some first; second = Some second }) }
{
    match first.pair(alloc, Some(second), mirror) {
        Ok(volume) => Ok(volume),
        Err((first, second)) => Err(Unattached {
            why: VolumeStop::Memory,
            first: Some(first),
            second,
        }),
    }
}

/// Attaches the disk of a spec, as one disk.
pub fn attach_single<R: Rack>(
    rack: &mut R,
    spec: &Spec,
) -> Result<Unopened<Single<R::D>>, AttachFault>
    ensures { Opens (R.seen rack.old) (R.seen rack.new) spec.now (single_seen R.D.seen) result }
{
    match Unopened::attach(rack, spec) {
        Ok(disk) => Ok(disk.alone()),
        Err(fault) => Err(fault),
    }
}

// Attaches the disk of a spec, as a volume. It takes no memory of its own.
fn attach_plain<R: Rack, P: Pairing<Single<R::D>>>(
    rack: &mut R,
    spec: &Spec,
) -> Result<Unopened<P>, Unattached<Single<R::D>>>
    ensures ok { IfOk result (IsVolume (single_seen R.D.seen) P.pairs (R.seen rack.old).holds
        (VolumeSpec.Plain spec.now)) }
    ensures err { IfErr result (StopsVolume (single_seen R.D.seen)
        (R.seen rack.old) (R.seen rack.new)
        (VolumeSpec.Plain spec.now)) }
    // Each disk that the rack attached is there, or is handed back.
    ensures counted { OnOk result
        ((R.seen rack.new).attached ≡ (R.seen rack.old).attached + 1) }
    ensures back { IfErr result (λ u. (R.seen rack.new).attached
        ≡ (R.seen rack.old).attached + (attached_count u.first + attached_count u.second)) }
    // What stays.
    ensures others { (s : Spec) → spec_number s ≢ spec_number spec.now
        → (R.seen rack.new).holds s ≡ (R.seen rack.old).holds s }
    ensures later { (R.seen rack.old).faults ≤ (R.seen rack.new).faults }
    ensures steady { OnOk result ((R.seen rack.new).faults ≡ (R.seen rack.old).faults) }
{
    match attach_single(rack, spec) {
        Ok(disk) => Ok(disk.alone()),
        Err(fault) => Err(Unattached {
            why: stop_of(fault),
            first: None,
            second: None,
        }),
    }
}

// Attaches the disks of two specs, tests their sizes, and joins them.
fn attach_joined<R: Rack, P: Pairing<Single<R::D>>>(
    alloc: Global,
    rack: &mut R,
    first: &Spec,
    second: &Spec,
    mirror: bool,
) -> Result<Unopened<P>, Unattached<Single<R::D>>>
    requires { spec_number second.now ≢ spec_number first.now }
    ensures ok { IfOk result (IsVolume (single_seen R.D.seen) P.pairs (R.seen rack.old).holds
        (VolumeSpec.Joined first.now second.now mirror)) }
    ensures err { IfErr result (StopsVolume (single_seen R.D.seen)
        (R.seen rack.old) (R.seen rack.new)
        (VolumeSpec.Joined first.now second.now mirror)) }
    // Each disk that the rack attached is there, or is handed back.
    ensures counted { OnOk result
        ((R.seen rack.new).attached ≡ (R.seen rack.old).attached + 2) }
    ensures back { IfErr result (λ u. (R.seen rack.new).attached
        ≡ (R.seen rack.old).attached + (attached_count u.first + attached_count u.second)) }
    // What stays.
    ensures others { (s : Spec) → spec_number s ≢ spec_number first.now
        → spec_number s ≢ spec_number second.now
        → (R.seen rack.new).holds s ≡ (R.seen rack.old).holds s }
    ensures later { (R.seen rack.old).faults ≤ (R.seen rack.new).faults }
    ensures steady { OnOk result ((R.seen rack.new).faults ≡ (R.seen rack.old).faults) }
{
    let a = match attach_single(rack, first) {
        Ok(disk) => disk,
        Err(fault) => {
            return Err(Unattached {
                why: stop_of(fault),
                first: None,
                second: None,
            });
        }
    };
    let b = match attach_single(rack, second) {
        Ok(disk) => disk,
        Err(fault) => {
            return Err(Unattached {
                why: stop_of(fault),
                first: Some(a),
                second: None,
            });
        }
    };
    match size_fault(&a, &b) {
        None => paired(alloc, a, b, mirror),
        Some(why) => Err(Unattached {
            why,
            first: Some(a),
            second: Some(b),
        }),
    }
}

/// Attaches the disk of a volume, or its two disks one right after the other. Then it tests the sizes of two, and joins them.
///
/// An error is a fault of the rack, a size that doesn't serve, or want of memory; it has the disks that were attached.
pub fn attach_volume<R: Rack, P: Pairing<Single<R::D>>>(
    alloc: Global,
    rack: &mut R,
    volume: &VolumeSpec,
) -> Result<Unopened<P>, Unattached<Single<R::D>>>
    requires { HasTwoNumbers volume.now }
    ensures ok { IfOk result
        (IsVolume (single_seen R.D.seen) P.pairs (R.seen rack.old).holds volume.now) }
    ensures err { IfErr result
        (StopsVolume (single_seen R.D.seen) (R.seen rack.old) (R.seen rack.new) volume.now) }
    // Each disk that the rack attached is there, or is handed back.
    ensures counted { OnOk result
        ((R.seen rack.new).attached ≡ (R.seen rack.old).attached + spec_count volume.now) }
    ensures back { IfErr result (λ u. (R.seen rack.new).attached
        ≡ (R.seen rack.old).attached + (attached_count u.first + attached_count u.second)) }
    // What stays.
    ensures others { (s : Spec) → spec_number s ≢ spec_number (first_spec volume.now)
        → ForSome (second_spec volume.now) (λ t. spec_number s ≢ spec_number t)
        → (R.seen rack.new).holds s ≡ (R.seen rack.old).holds s }
    ensures later { (R.seen rack.old).faults ≤ (R.seen rack.new).faults }
    ensures steady { OnOk result ((R.seen rack.new).faults ≡ (R.seen rack.old).faults) }
{
    match volume {
        VolumeSpec::Plain(spec) => attach_plain(rack, spec),
        VolumeSpec::Joined {
            first,
            second,
            mirror,
        } => attach_joined(alloc, rack, first, second, *mirror),
    }
}
