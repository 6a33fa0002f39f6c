//! Examples of rows of bids and offers, and the edges of every refusal.

#![tactic(auto)]

#[cfg(test)]
mod tests {
    use row::entries::{Bid, Offer};
    use row::refusal::RowRefusal;
    use row::{first, insert, remove};
    use terms::Order;

    fn order(rate: i32, number: u16) -> Order {
        Order {
            rate,
            number,
            member: 0,
            lots: 1,
        }
    }

    fn bid(rate: i32, number: u16) -> Bid {
        Bid(order(rate, number))
    }

    fn offer(rate: i32, number: u16) -> Offer {
        Offer(order(rate, number))
    }

    #[test]
    fn bids_stand_by_higher_rate_and_then_lower_number(rt: HostRuntime) {
        let mut row = [bid(0, 0); 5];
        assert_eq!(rt; first(&row, 0), Ok(None), "an empty row");
        assert_eq!(rt; insert(&mut row, 0, bid(61_000, 1)), Ok(1));
        assert_eq!(rt; insert(&mut row, 1, bid(61_000, 2)), Ok(2));
        assert_eq!(rt; insert(&mut row, 2, bid(61_100, 3)), Ok(3));
        assert_eq!(rt; insert(&mut row, 3, bid(i32::MIN, 4)), Ok(4));
        assert_eq!(rt;
            row,
            [
                bid(61_100, 3),
                bid(61_000, 1),
                bid(61_000, 2),
                bid(i32::MIN, 4),
                bid(0, 0),
            ]
        );
        assert_eq!(rt; first(&row, 4), Ok(Some(bid(61_100, 3))));
    }

    #[test]
    fn offers_stand_by_lower_rate_and_then_lower_number(rt: HostRuntime) {
        let mut row = [offer(0, 0); 4];
        assert_eq!(rt; insert(&mut row, 0, offer(61_000, 2)), Ok(1));
        assert_eq!(rt;
            insert(&mut row, 1, offer(61_000, 1)),
            Ok(2),
            "an earlier order at the same rate"
        );
        assert_eq!(rt; insert(&mut row, 2, offer(i32::MAX, 3)), Ok(3));
        assert_eq!(rt; insert(&mut row, 3, offer(-1, 4)), Ok(4));
        assert_eq!(rt;
            row,
            [
                offer(-1, 4),
                offer(61_000, 1),
                offer(61_000, 2),
                offer(i32::MAX, 3),
            ]
        );
    }

    #[test]
    fn what_cannot_be_done_is_refused_and_changes_nothing(rt: HostRuntime) {
        let full = [bid(3, 1), bid(2, 2)];
        let mut row = full;
        assert_eq!(rt; insert(&mut row, 2, bid(9, 9)), Err(RowRefusal::NoRoom));
        assert_eq!(rt;
            insert(&mut row, 3, bid(9, 9)),
            Err(RowRefusal::CountBeyondSlice)
        );
        assert_eq!(rt; first(&row, 3), Err(RowRefusal::CountBeyondSlice));
        assert_eq!(rt; remove(&mut row, 3, 0), Err(RowRefusal::CountBeyondSlice));
        assert_eq!(rt; remove(&mut row, 2, 2), Err(RowRefusal::NoSuchPlace));
        assert_eq!(rt;
            remove(&mut row, 1, 1),
            Err(RowRefusal::NoSuchPlace),
            "behind the occupied places"
        );
        assert_eq!(rt; remove(&mut row, 0, 0), Err(RowRefusal::NoSuchPlace));
        assert_eq!(rt; row, full);
    }

    #[test]
    fn remove_takes_out_one_at_either_end_and_in_the_middle(rt: HostRuntime) {
        let mut row = [bid(4, 1), bid(3, 2), bid(2, 3), bid(1, 4)];
        assert_eq!(rt; remove(&mut row, 4, 3), Ok(bid(1, 4)), "the last");
        assert_eq!(rt; remove(&mut row, 3, 1), Ok(bid(3, 2)), "in the middle");
        assert_eq!(rt;
            row,
            [bid(4, 1), bid(2, 3), bid(2, 3), bid(1, 4)],
            "what falls free stays as it was"
        );
        assert_eq!(rt; remove(&mut row, 2, 0), Ok(bid(4, 1)), "the first");
        assert_eq!(rt; first(&row, 1), Ok(Some(bid(2, 3))));
        assert_eq!(rt; remove(&mut row, 1, 0), Ok(bid(2, 3)));
        assert_eq!(rt; first(&row, 0), Ok(None));
    }
}
