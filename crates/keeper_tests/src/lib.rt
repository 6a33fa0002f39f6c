//! Examples of what the keepers answer, and the edges of every refusal.

#![tactic(auto)]

#[cfg(test)]
mod tests {
    use keepers::gross::GrossKeeper;
    use keepers::reckoner::Reckoner;
    use keepers::running::RunningKeeper;
    use margin::deposit::deposit_use;
    use margin::keeper::Keeper;
    use margin::trade::record_trade;
    use std::process::Abort;
    use terms::Side;

    // Each edge from both sides, on a fresh keeper.
    fn refuses_past_each_edge<K: Keeper>(rt: &impl Abort, keeper: &mut K) {
        assert!(rt; keeper.set_factor(16, 100).is_err());
        assert!(rt; keeper.set_factor(0, 0).is_err());
        assert!(rt; keeper.set_factor(0, 100_001).is_err());
        assert!(rt; keeper.set_factor(0, 1).is_ok());
        assert!(rt; keeper.set_factor(0, 1).is_err(), "a second factor");
        assert!(rt; keeper.set_factor(15, 100_000).is_ok());
        assert!(rt; keeper.record(32, 0, Side::Bid, 1).is_err());
        assert!(rt; keeper.record(31, 16, Side::Bid, 1).is_err());
        assert!(rt; keeper.record(31, 1, Side::Bid, 1).is_err(), "no factor");
        assert!(rt; keeper.record(31, 15, Side::Bid, 0).is_err());
        assert!(rt; keeper.record(31, 15, Side::Bid, 1).is_ok());
        reaches(rt, keeper);
    }

    // Member 31 has bought 1 lot of instrument 15.
    fn reaches<K: Keeper>(rt: &impl Abort, keeper: &mut K) {
        assert_eq!(rt; K::highest_total(), K::REACH);
        assert!(rt; keeper.need_with(31, 15, Side::Bid, 100_000).is_err());
        assert!(rt; keeper.record(31, 15, Side::Bid, 100_000).is_err());
        assert!(rt; keeper.record(31, 15, Side::Bid, 99_999).is_ok());
        assert_eq!(rt; keeper.held(31, 15, Side::Bid), 100_000);
        assert!(rt; keeper.record(31, 15, Side::Bid, 1).is_err());
        assert!(rt;
            keeper.record(31, 15, Side::Offer, 100_000).is_ok(),
            "the other side has its own total"
        );
        assert_eq!(rt; keeper.held(31, 15, Side::Offer), 100_000);
        assert_eq!(rt; keeper.held(32, 15, Side::Bid), 0);
        assert_eq!(rt; keeper.held(31, 16, Side::Bid), 0);
        assert_eq!(rt; keeper.need(30), 0);
        assert_eq!(rt; keeper.need(32), 0);
    }

    #[test]
    fn each_keeper_refuses_past_each_edge(rt: HostRuntime) {
        refuses_past_each_edge(&rt, &mut Reckoner::fresh());
        refuses_past_each_edge(&rt, &mut RunningKeeper::fresh());
        refuses_past_each_edge(&rt, &mut GrossKeeper::fresh());
    }

    // Factor 100: 10 lots sold, and then 6 bought.
    fn charges<K: Keeper>(rt: &impl Abort, keeper: &mut K, sold: u64, both: u64) {
        assert!(rt; keeper.set_factor(0, 100).is_ok());
        assert_eq!(rt; keeper.need_with(0, 0, Side::Offer, 10).ok(), Some(sold));
        assert_eq!(rt; keeper.need(0), 0, "asking records nothing");
        assert!(rt; keeper.record(0, 0, Side::Offer, 10).is_ok());
        assert_eq!(rt; keeper.need(0), sold);
        assert!(rt; keeper.record(0, 0, Side::Bid, 6).is_ok());
        assert_eq!(rt; keeper.need(0), both);
    }

    #[test]
    fn the_standard_charge_offsets_half_and_the_gross_charge_nothing(rt: HostRuntime) {
        charges(&rt, &mut Reckoner::fresh(), 2_000, 1_400);
        charges(&rt, &mut RunningKeeper::fresh(), 2_000, 1_400);
        charges(&rt, &mut GrossKeeper::fresh(), 2_000, 3_200);
    }

    #[test]
    fn a_trade_is_recorded_on_both_sides_or_on_neither(rt: HostRuntime) {
        let mut keeper = Reckoner::fresh();
        assert!(rt; keeper.set_factor(0, 100).is_ok());
        assert!(rt; record_trade(&mut keeper, 0, 32, 0, 5).is_err());
        assert_eq!(rt;
            keeper.held(0, 0, Side::Bid),
            0,
            "the buyer of a refused trade"
        );
        assert!(rt; record_trade(&mut keeper, 0, 1, 0, 5).is_ok());
        assert_eq!(rt; keeper.held(0, 0, Side::Bid), 5);
        assert_eq!(rt; keeper.held(1, 0, Side::Offer), 5);
        assert_eq!(rt; keeper.held(0, 0, Side::Offer), 0);
    }

    #[test]
    fn the_use_of_a_deposit_is_in_whole_hundredths(rt: HostRuntime) {
        let mut keeper = Reckoner::fresh();
        assert!(rt; keeper.set_factor(0, 100).is_ok());
        assert!(rt; keeper.record(0, 0, Side::Offer, 10).is_ok());
        assert_eq!(rt; deposit_use(&keeper, 0, 0), None);
        assert_eq!(rt; deposit_use(&keeper, 0, 2_000), Some(100));
        assert_eq!(rt; deposit_use(&keeper, 0, 2_001), Some(99));
        assert_eq!(rt; deposit_use(&keeper, 32, 2_000), Some(0));
    }
}
