ghost use Rattle.std.specs.Prelude.{◌≡◌, ◌↔◌, ℕ, IsSome};
ghost use Rattle.disk_model.specs.declared.fault.FileNo.{FileNo};
ghost use Rattle.disk_model.specs.Images.{Image, IsDurable, NoNewImage};
ghost use Rattle.disk_model.specs.Told.{TellsThen, TellsStop, IsRunning, after_arm, after_disarm, after_revive};

use crate::disk::Disk;

/// When a disk stops, and which image that leaves.
#[derive(Clone, Copy, Debug, PartialEq, Eq)]
pub struct Arm {
    /// How many more calls of `write_at`, `cut` and `sync` succeed; the next one stops within.
    pub left: u32,
    /// The number of the image. Modulo 3, it is 0 for what the last syncs left, 1 for the stopped call done, and 2 for
    /// the same with the number's third, modulo 256, in each byte that was written since its file's last sync.
    pub image: u32,
}

/// A disk that can be told to stop within a chosen call, and what that leaves. No call takes memory.
pub trait ArmedDisk: Disk {
    /// Lets `pass` more calls of `write_at`, `cut` and `sync` succeed, and the next one stop within and leave the image of
    /// that number. Every call after it is stopped too. A disk that has stopped stays as it is.
    fn arm(&mut self, pass: u32, image: u32)
        ensures told { TellsThen (λ old new. new ≡ after_arm pass image old) (Self.view.told self.old) (Self.view.told self.new) }
        ensures seen { Self.view.seen self.new ≡ Self.view.seen self.old }
        ensures images { (image : Image) → Self.view.may_leave self.new image ↔ Self.view.may_leave self.old image }
        ensures moment { Self.view.moment self.new ≡ Self.view.moment self.old }
        ensures time { (start : ℕ) (image : Image) → Self.view.left_since self.new start image ↔ Self.view.left_since self.old start image }
        ensures honest { Self.view.honest self.new ↔ Self.view.honest self.old }
        ensures counts { Self.view.counts self.new ≡ Self.view.counts self.old };

    /// Takes [`ArmedDisk::arm`] back, where no stop has come.
    fn disarm(&mut self)
        ensures told { TellsThen (λ old new. new ≡ after_disarm old) (Self.view.told self.old) (Self.view.told self.new) }
        ensures seen { Self.view.seen self.new ≡ Self.view.seen self.old }
        ensures images { (image : Image) → Self.view.may_leave self.new image ↔ Self.view.may_leave self.old image }
        ensures moment { Self.view.moment self.new ≡ Self.view.moment self.old }
        ensures time { (start : ℕ) (image : Image) → Self.view.left_since self.new start image ↔ Self.view.left_since self.old start image }
        ensures honest { Self.view.honest self.new ↔ Self.view.honest self.old }
        ensures counts { Self.view.counts self.new ≡ Self.view.counts self.old };

    /// After a stop, makes the files the image that the stop leaves, all of it synced, and takes calls again. Without a
    /// stop nothing changes.
    fn revive(&mut self)
        ensures told { TellsThen (λ old new. new ≡ after_revive old) (Self.view.told self.old) (Self.view.told self.new) }
        // The files are an image that the stop may leave.
        ensures left { Self.view.honest self.old → Self.view.may_leave self.old (Self.view.seen self.new) }
        ensures no_new_image { Self.view.honest self.old → NoNewImage (Self.view.may_leave self.old) (Self.view.may_leave self.new) }
        ensures synced { Self.view.honest self.old → TellsStop (Self.view.told self.old)
            → (file : FileNo) → IsDurable file (Self.view.seen self.new) (Self.view.may_leave self.new) }
        ensures running { IsRunning (Self.view.told self.old) → self.new ≡ self.old }
        ensures honest { Self.view.honest self.new ↔ Self.view.honest self.old }
        ensures counts { Self.view.counts self.new ≡ Self.view.counts self.old };

    /// It tells when it will stop.
    ghost tells: { (disk : Self) → IsSome (Self.Disk.view.told disk) };
}
