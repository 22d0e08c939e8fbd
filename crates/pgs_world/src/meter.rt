ghost use Rattle.std.specs.Prelude.{◌≡◌, ◌+◌, ◌<◌, ◌^◌, not, length};
ghost use Rattle.pgs_world.specs.MemWorld.{fails_next, refuses, counted, handed_in, area_failed, put_failed, put_done};

use pgs_base::List;

/// What a world in memory counts, and where it fails.
#[derive(Drop)]
pub(crate) struct Meter {
    /// How many calls, and how many bytes, there is memory for.
    pub(crate) room: u64,
    /// No call after so many succeeds.
    pub(crate) most: u64,
    /// The numbers of the calls that fail, from 1.
    pub(crate) fail: List<u64>,
    pub(crate) calls: u64,
    /// The bytes handed in so far, also to calls that failed.
    pub(crate) handed: u64,
    pub(crate) area_faults: u64,
    pub(crate) put_faults: u64,
    /// The puts that succeeded.
    pub(crate) puts: u64,
}

impl Meter {
    pub(crate) fn new(room: u64, most: u64, fail: List<u64>) -> Meter
        ensures { result ≡ record { room = room; most = most; fail = fail; calls = 0; handed = 0; area_faults = 0; put_faults = 0; puts = 0 } }
    {
        Meter {
            room,
            most,
            fail,
            calls: 0,
            handed: 0,
            area_faults: 0,
            put_faults: 0,
            puts: 0,
        }
    }

    /// Counts a call, and says whether it may succeed.
    pub(crate) fn admits(&mut self) -> bool
        ensures admits { result ≡ not (fails_next self.old) }
        ensures counted { self.new ≡ counted self.old }
    {
        self.calls = self.calls.saturating_add(1);
        !self.fail.as_slice().contains(&self.calls) && self.calls <= self.most
    }

    /// Counts a call with a piece, and says whether it may succeed.
    pub(crate) fn admits_piece(&mut self, piece: &[u8]) -> bool
        ensures admits { result ≡ not (refuses self.old (length piece.now)) }
        ensures counted { self.new ≡ handed_in self.old (length piece.now) }
    {
        let admits = self.admits();
        self.handed = self.handed.saturating_add(piece.len() as u64);
        admits && self.handed <= self.room
    }

    pub(crate) fn count_area_fault(&mut self)
        ensures { self.new ≡ area_failed self.old }
    {
        self.area_faults = self.area_faults.saturating_add(1);
    }

    pub(crate) fn count_put_fault(&mut self)
        ensures { self.new ≡ put_failed self.old }
    {
        self.put_faults = self.put_faults.saturating_add(1);
    }

    pub(crate) fn count_put(&mut self)
        requires { self.old.puts + 1 < 2 ^ 64 }
        ensures { self.new ≡ put_done self.old }
    {
        self.puts += 1;
    }
}
