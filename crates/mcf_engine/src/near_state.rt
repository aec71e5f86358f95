//! A state with prices that nearly show it.
ghost use Rattle.mcf_engine.specs.NearPrices.{AreNearPrices};

use mcf_network::State;

/// A state with prices that nearly show its flow, at costs times `scale` and within `slack`.
#[derive(Drop)]
pub(crate) struct NearState<'s, 'n> {
    pub(crate) state: &'s State<'n>,
    pub(crate) scale: u32,
    pub(crate) slack: u32,
    pub(crate) prices: &'s [i128],
    ghost near: { AreNearPrices state.now scale slack prices.now },
}
