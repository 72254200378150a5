//! How many results were compared, how many are as expected, and what the comparing needs.
use decoder::Decoder;
use std::alloc::Global;

/// The results compared so far, where outcomes are printed, and the engine that is compared.
#[derive(Drop)]
pub(crate) struct Comparison<'a> {
    pub(crate) rt: &'a HostRuntime,
    pub(crate) decoder: Decoder,
    compared: u32,
    equal: u32,
}

impl<'a> Comparison<'a> {
    /// Nothing is compared yet.
    pub(crate) fn new(rt: &'a HostRuntime) -> Comparison<'a> {
        Comparison {
            rt,
            decoder: Decoder::new(),
            compared: 0,
            equal: 0,
        }
    }

    pub(crate) fn heap(&self) -> Global {
        self.rt.alloc()
    }

    /// One more comparison.
    pub(crate) fn count(&mut self, equal: bool) {
        self.compared = self.compared.saturating_add(1);
        if equal {
            self.equal = self.equal.saturating_add(1);
        }
    }

    /// One more comparison, whose outcome is printed.
    pub(crate) fn note(&mut self, equal: bool) -> anyhow::Result<()> {
        self.count(equal);
        let outcome = if equal {
            "as expected"
        } else {
            "NOT as expected"
        };
        println!(self.rt; "  {outcome}")?;
        Ok(())
    }

    /// Prints the numbers of comparisons, and answers whether all are as expected.
    pub(crate) fn ends_well(&self) -> anyhow::Result<bool> {
        let compared = self.compared;
        let equal = self.equal;
        println!(self.rt; "{compared} comparisons, {equal} equal")?;
        Ok(equal == compared)
    }
}
