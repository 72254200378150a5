//! Segments of a list of modes: its longest stretches of one mode.
#![tactic(auto)]

ghost use Rattle.std.specs.Prelude.{◌≡◌, ◌<◌, ◌≤◌, [], ◌∷◌, MatchResult};
ghost use Rattle.std.specs.Option.{ForSome};
ghost use Rattle.fault.specs.declared.Fault.TheVariants.{QueueFull};
ghost use Rattle.segment.specs.Segments.{limit};

use fault::Fault;
use queue::Queue;

/// The most modes that a segmenter takes before its end call.
const MOST: u32 = 1_000_000;

/// A longest stretch of one mode: the mode, its first reading, counted from 1, and its length.
#[derive(Clone, Copy, PartialEq, Eq, Debug)]
pub struct Segment {
    pub mode: u8,
    pub first: u32,
    pub length: u32,
}

/// Condenses modes into segments. It holds the segment of the last mode taken, which may still grow.
#[derive(Debug, Drop)]
pub struct Segmenter {
    hand: Option<Segment>,
    taken: u32,
    ghost few: { taken ≤ limit },
    ghost held: { ForSome hand (λ s. s.length ≤ taken) },
}

impl Segmenter {
    ghost use Rattle.segment.specs.Segmenter.{Stands, Grown, Blocked, Advanced, Ended, EndBlocked};

    /// A segmenter that has taken no mode.
    pub fn new() -> Segmenter
        ensures { Stands result [] [] }
    {
        Segmenter {
            hand: None,
            taken: 0,
        }
    }

    /// Takes modes from the front of one queue and puts each segment that they close into the other. It stops when no
    /// mode is left, when there is no room for a closed segment, or when it has taken 1,000,000 modes since new. It
    /// answers how many it took; the others stay in their queue.
    pub fn advance(&mut self, modes: &mut Queue<u8>, segments: &mut Queue<Segment>) -> usize
        ensures { Advanced self.old modes.old segments.old result self.new modes.new segments.new }
    {
        let most = (MOST - self.taken) as usize;
        for count in 0..most {
            let Some(mode) = modes.peek() else {
                return count;
            };
            let Ok(()) = self.step(mode, segments) else {
                return count;
            };
            modes.take();
        }
        most
    }

    /// Puts the segment in hand, if there is one, and is new again. Refused where there is no room for it.
    pub fn end(&mut self, segments: &mut Queue<Segment>) -> Result<(), Fault>
        ensures { MatchResult result
            (λ _. Ended self.old segments.old self.new segments.new)
            (λ f. (f ≡ QueueFull) × (self.new ≡ self.old) × (segments.new ≡ segments.old) × EndBlocked self.old segments.old) }
    {
        if let Some(last) = self.hand {
            segments.put(last)?;
        }
        *self = Segmenter::new();
        Ok(())
    }

    // Takes one mode. Where that closes the segment in hand and there is no room for it, all is left as it is.
    fn step(&mut self, mode: u8, segments: &mut Queue<Segment>) -> Result<(), Fault>
        requires { self.old.taken < limit }
        ensures { MatchResult result
            (λ _. Grown self.old segments.old (mode ∷ []) self.new segments.new)
            (λ _. (self.new ≡ self.old) × (segments.new ≡ segments.old) × Blocked self.old mode segments.old) }
    {
        let fresh = Segment {
            mode,
            first: self.taken + 1,
            length: 1,
        };
        let hand = match (self.hand, mode) {
            (None, _) => fresh,
            (Some(segment), mode) if segment.mode == mode => Segment {
                length: segment.length + 1,
                ..segment
            },
            (Some(segment), _) => {
                segments.put(segment)?;
                fresh
            }
        };
        *self = Segmenter {
            hand: Some(hand),
            taken: self.taken + 1,
        };
        Ok(())
    }
}

#[cfg(test)]
mod tests;
