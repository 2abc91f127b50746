//! What a run says to a user, law by law. Each function does nothing: its contract is the law.
ghost use Rattle.std.specs.Prelude.{ℕ, ◌≡◌, ◌≤◌, ◌<◌, ◌+◌, ◌⊎◌, ◌↔◌, List, Option, Some, IsSome};
ghost use Rattle.std.specs.Prelude.{IsSomeAnd, slice_get};
ghost use Rattle.vm_core.specs.kernel_close.Finish.{HistorySeen};
ghost use Rattle.volume_files.specs.Handed.{HandsAll, disk_handed};
ghost use Rattle.volume_files.specs.Opened.{volume_specs};
ghost use Rattle.volume_files.specs.block_device.DiskSeen.{DiskSeen};
ghost use Rattle.volume_files.specs.flat_model.Counted.{Counted, top_count};
ghost use Rattle.volume_files.specs.vm_script.PlanSeen.{PlanSeen};
ghost use Rattle.volume_files.specs.vm_types.declared.call.Entry.{Entry};
ghost use Rattle.volume_files.specs.vm_types.declared.call.Reply.TheVariants.{Io};
ghost use Rattle.volume_files.specs.volume_disks.declared.volume_spec.VolumeSpec.{VolumeSpec};
ghost use Rattle.run_input.specs.Asked.{Given};
ghost use Rattle.run_outcome.specs.Ended.{CountsReach, End};
ghost use Rattle.run_outcome.specs.Members.{AreSeenBy, WasRun};
ghost use Rattle.run_outcome.specs.Run.{DisksTell, EndsWhole, Outside, RunEnds};
ghost use Rattle.run_outcome.specs.RunLaws.{IsAsAsked, KeepFiles, RanFronts, WroteAll, disks_back};

/// Status 0 says that the whole report was written and nothing failed, that a trace is legal, or that
/// what was asked of the program itself was told. Status 7 has a fault of a device, and no other
/// status has one.
pub fn status_law()
    ensures whole { (g : Given) (o : Outside) (e : End) → RunEnds g o e → e.status ≡ 0 →
        WroteAll g o e }
    ensures failed { (g : Given) (o : Outside) (e : End) → RunEnds g o e →
        (e.status ≡ 7 ↔ IsSome e.fault) }
{}

/// Each disk that the rack attached comes back.
pub fn disks_back_law()
    ensures back { (g : Given) (o : Outside) (e : End) → WasRun g o e →
        o.attached_new ≡ o.attached_old + disks_back e }
{}

/// What a script's line joins comes back as the line asks, a mirror as a mirror and a stripe as a
/// stripe, of two disks of as many blocks; and nothing else comes back joined.
pub fn as_asked_law()
    ensures asked { (plan : PlanSeen) (over : List DiskSeen) (swap : Option DiskSeen) →
        (disks : List (DiskSeen × Option DiskSeen)) (i : ℕ) (s : VolumeSpec) →
        (p : DiskSeen × Option DiskSeen) (v : DiskSeen) → HandsAll plan over swap →
        AreSeenBy disks over → slice_get (volume_specs plan) i ≡ Some s →
        slice_get disks i ≡ Some p → slice_get over i ≡ Some v → IsAsAsked s p v }
{}

/// Of two device errors of one disk the later one names a greater count, unless it is at its end.
pub fn errors_rise_law()
    ensures { (H : List Entry) (j k : ℕ) (d e : Entry) (disk b after before a : ℕ) → Counted H →
        j < k → slice_get H j ≡ Some d → slice_get H k ≡ Some e → d.reply ≡ Io disk b after →
        e.reply ≡ Io disk before a → (after < a) ⊎ (a ≡ top_count) }
{}

/// What a device error names, its disk has counted as it comes back.
pub fn errors_counted_law()
    ensures { (plan : PlanSeen) (history : HistorySeen) (disks : List DiskSeen) →
        (swap : Option DiskSeen) (k : ℕ) (e : Entry) (number before after : ℕ) →
        CountsReach plan history disks swap → slice_get history.entries k ≡ Some e →
        e.reply ≡ Io number before after →
        IsSomeAnd (disk_handed plan disks swap number) (λ d. after ≤ d.faults) }
{}

/// However a run ended, each block that was born made a front of its lines, or none made any.
pub fn ran_fronts_law()
    ensures { (g : Given) (o : Outside) (e : End) → RunEnds g o e → RanFronts g e }
{}

/// Behind a whole report the disks have the files as the history leaves them, where they tell.
pub fn kept_files_law()
    ensures { (g : Given) (o : Outside) (e : End) → EndsWhole g o e → DisksTell e → KeepFiles e }
{}
