//! The engine beside the full table.
use super::comparison::Comparison;
use cost::CostKind;
use decoder::Decoder;
use model::{Costs, Model};
use reference::Progress;
use reference::full_table::FullTable;

// The longest log that is compared; the ring then still has all modes.
const LONGEST: u32 = 4096;

// Whether the ring has these modes, from the first reading on.
fn same_modes(decoder: &Decoder, modes: &[usize]) -> bool {
    decoder.decided() as usize == modes.len()
        && (0u32..LONGEST)
            .zip(modes.iter())
            .all(|(i, mode)| usize::from(decoder.mode(i)) == *mode)
}

// How far the engine is.
fn progress(decoder: &Decoder) -> Progress {
    Progress {
        decided: decoder.decided() as usize,
        live: decoder.live(),
    }
}

impl<'a> Comparison<'a> {
    /// Whether the engine and the full table take the same readings, say the same after each of them, and end with the
    /// same path and total.
    pub(crate) fn agrees<M: Model, C: CostKind>(
        &mut self,
        costs: &Costs<M, C>,
        readings: &[u8],
    ) -> anyhow::Result<bool> {
        let modes = costs.model.modes();
        let mut table = FullTable::new(self.heap(), modes);
        self.decoder.reset(modes);
        for (at, value) in readings.iter().enumerate() {
            if self.decoder.taken() >= LONGEST {
                return Ok(false);
            }
            let reading = usize::from(*value);
            let taken = self.decoder.step(costs, reading, at).is_ok();
            if table.push(costs, reading)? != taken {
                return Ok(false);
            }
            if taken && progress(&self.decoder) != table.progress()? {
                return Ok(false);
            }
        }
        let found = table.decode(costs.kind)?;
        let total = self.decoder.finish(costs);
        Ok(total == found.total && same_modes(&self.decoder, &found.modes))
    }
}
