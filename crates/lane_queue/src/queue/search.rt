// Where the most urgent job is.
ghost use Rattle.std.specs.Option.{MatchOption};
ghost use Rattle.lane_queue.specs.Lanes.{Idle, Leads};

use super::LaneQueue;

impl LaneQueue {
    // The lane that has the most urgent job in front, or none where no job waits.
    // The lowest set bit of the word gives the next lane to compare, and is then cleared: by the trailing zeros of a word,
    // as this queue is to find its lanes, and so by a loop on the word.
    pub(super) fn leader(&self) -> Option<usize>
        ensures { MatchOption result (Idle self.now.lanes) (Leads self.now.lanes) }
    {
        if self.used == 0 {
            return None;
        }
        let mut best = self.used.trailing_zeros() as usize;
        let mut word = self.used & (self.used - 1);
        while word != 0 {
            let i = word.trailing_zeros() as usize;
            if self.lanes[i].leads(&self.lanes[best]) {
                best = i;
            }
            word &= word - 1;
        }
        Some(best)
    }
}
