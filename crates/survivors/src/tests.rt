ghost use Rattle.std.specs.Prelude.{◌≡◌, ℕ, ◌<◌};
ghost use Rattle.survivors.specs.Survivors.{HasTip, decided, taken};

use super::Survivors;

// A log of two modes that are both reachable after each reading.
#[derive(Drop)]
struct Log {
    survivors: Survivors,
    ring: [u8; 4096],
    ghost tips: { (u : ℕ) → u < 2 → decided survivors < taken survivors → HasTip survivors u },
}

impl Log {
    fn new() -> Self {
        let survivors = Survivors::new();
        Log {
            survivors,
            ring: [0; 4096],
        }
    }

    // One reading, at which the modes 0 and 1 go on from these; false where a mode is out of range or a cell is wanting.
    fn read(&mut self, zero: u8, one: u8) -> bool {
        if zero > 1 || one > 1 || self.survivors.live() > 1022 || self.survivors.taken() > 999999 {
            return false;
        }
        let preds = [Some(zero), Some(one)];
        self.survivors.grow(&preds);
        self.survivors.settle(&mut self.ring);
        true
    }

    // Ends the log in the mode 1.
    fn end(&mut self) {
        self.survivors.finish(1, &mut self.ring);
    }

    fn is_at(&self, decided: u32, live: usize) -> bool {
        self.survivors.decided() == decided && self.survivors.live() == live
    }
}

#[test]
fn readings_are_decided_where_paths_meet(rt: HostRuntime) {
    let mut log = Log::new();
    assert!(rt; log.read(0, 0) && log.is_at(0, 2));
    assert!(rt; log.read(0, 0) && log.is_at(1, 2));
    assert!(rt; log.read(0, 0) && log.is_at(2, 2));
    assert!(rt; log.read(0, 1) && log.is_at(2, 4));
    assert!(rt; log.read(1, 1) && log.is_at(4, 2));
    log.end();
    assert!(rt; log.is_at(5, 0) && log.ring.starts_with(&[0, 0, 1, 1, 1]));
}
