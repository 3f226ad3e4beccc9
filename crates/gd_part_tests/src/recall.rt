//! What no clause of gd_recall says: that the lists are to be had, what they keep of more records than they hold, and bytes of
//! records as docs/FORMATS.md has them.

use gd_base::{BillRecord, EventRecord, Game, PAYLOAD_LEN, PlayRecord, VoucherRecord};
use gd_recall::Recall;
use std::test::Fail;

/// A play of the reels that ended, by its number.
fn play_of(number: u64) -> PlayRecord {
    PlayRecord {
        number,
        index: number,
        words: [0; 16],
        game: Game::Reels,
        bet: 1,
        wager: 5,
        choice: None,
        turns: 0,
        colours: 0,
        win: 0,
        before: 100,
        after: 95,
        place: number,
    }
}

#[test]
fn ten_plays_and_five_bills_are_kept(rt: HostRuntime) -> Result<(), Fail> {
    let mut recall = Recall::new(rt.alloc())?;
    assert_eq!(rt; recall.play(0), None);
    for number in 1..13u64 {
        recall.note_play(&play_of(number));
        recall.note_bill(&BillRecord {
            place: number,
            value: 500,
        });
    }
    assert_eq!(rt; recall.play_count(), 10);
    assert_eq!(rt; recall.play(0), Some(play_of(12)));
    assert_eq!(rt; recall.play(9), Some(play_of(3)));
    assert_eq!(rt; recall.play(10), None);
    assert_eq!(rt; recall.bill_count(), 5);
    assert_eq!(rt;
        recall.bill(4),
        Some(BillRecord {
            place: 8,
            value: 500
        })
    );
    assert_eq!(rt; recall.bill(5), None);
    recall.clear();
    assert_eq!(rt; recall.play(0), None);
    assert_eq!(rt; recall.bill_count(), 0);
    Ok(())
}

#[test]
fn a_hundred_events_are_kept(rt: HostRuntime) -> Result<(), Fail> {
    let mut recall = Recall::new(rt.alloc())?;
    for place in 1..103u64 {
        recall.note_event(&EventRecord {
            place,
            code: 1,
            detail: 0,
        });
    }
    let oldest = EventRecord {
        place: 3,
        code: 1,
        detail: 0,
    };
    assert_eq!(rt; recall.event_count(), 100);
    assert_eq!(rt; recall.event(99), Some(oldest));
    assert_eq!(rt; recall.event(100), None);
    Ok(())
}

#[test]
fn a_voucher_is_seen_where_it_was_taken_in(rt: HostRuntime) -> Result<(), Fail> {
    let mut recall = Recall::new(rt.alloc())?;
    for id in 1..37u64 {
        recall.note_voucher(&VoucherRecord {
            place: id,
            kind: 1 + (id % 2) as u8,
            id,
            value: 100,
        });
    }
    // The first of 36 is no longer kept. Those of an even id were taken in, and the others printed.
    assert_eq!(rt; recall.voucher_count(), 35);
    assert!(rt; recall.seen(2));
    assert!(rt; recall.seen(36));
    assert!(rt; !recall.seen(35));
    assert!(rt; !recall.seen(37));
    Ok(())
}

/// Bytes with some put at a place.
fn put(payload: &mut [u8; PAYLOAD_LEN], place: usize, bytes: &[u8]) {
    for (at, byte) in payload.iter_mut().skip(place).zip(bytes) {
        *at = *byte;
    }
}

/// A payload that has one record of each list, by its bytes.
fn payload_of_one_each() -> [u8; PAYLOAD_LEN] {
    let mut payload = [0; PAYLOAD_LEN];
    put(&mut payload, 316, &[0, 1, 0, 1, 0, 1, 0, 1]);
    // Play 3 on block 7, whose words are 0 but for the first, 1, and the last, 2.
    put(
        &mut payload,
        4096,
        &[0, 0, 0, 0, 0, 0, 0, 3, 0, 0, 0, 0, 0, 0, 0, 7],
    );
    put(&mut payload, 4112, &[0, 0, 0, 0, 0, 0, 0, 1]);
    put(&mut payload, 4232, &[0, 0, 0, 0, 0, 0, 0, 2]);
    // Poker, bet 5, wager 25, all cards but the last held, two turns on black, and a zero.
    put(&mut payload, 4240, &[2, 5, 0, 0, 0, 25, 62, 2, 3, 0]);
    // It won 400, from 500 to 875, at place 9.
    put(&mut payload, 4250, &[0, 0, 0, 0, 0, 0, 1, 144]);
    put(&mut payload, 4258, &[0, 0, 0, 0, 0, 0, 1, 244]);
    put(&mut payload, 4266, &[0, 0, 0, 0, 0, 0, 3, 107]);
    put(&mut payload, 4274, &[0, 0, 0, 0, 0, 0, 0, 9]);
    // The cashbox door at place 5.
    put(
        &mut payload,
        5956,
        &[0, 0, 0, 0, 0, 0, 0, 5, 2, 0, 0, 0, 0, 0, 0, 0, 3],
    );
    // 500 cents at place 2.
    put(&mut payload, 7656, &[0, 0, 0, 0, 0, 0, 0, 2, 0, 0, 1, 244]);
    // Id 77 of 300 cents, taken in at place 4.
    put(
        &mut payload,
        7716,
        &[
            0, 0, 0, 0, 0, 0, 0, 4, 1, 0, 0, 0, 0, 0, 0, 0, 77, 0, 0, 1, 44,
        ],
    );
    payload
}

/// The play of that payload.
fn play_of_payload() -> PlayRecord {
    PlayRecord {
        number: 3,
        index: 7,
        words: [1, 0, 0, 0, 0, 0, 0, 0, 0, 0, 0, 0, 0, 0, 0, 2],
        game: Game::Poker,
        bet: 5,
        wager: 25,
        choice: Some(30),
        turns: 2,
        colours: 3,
        win: 400,
        before: 500,
        after: 875,
        place: 9,
    }
}

#[test]
fn one_of_each_is_read_and_written(rt: HostRuntime) -> Result<(), Fail> {
    let payload = payload_of_one_each();
    let mut recall = Recall::new(rt.alloc())?;
    assert!(rt; recall.load(&payload));
    assert_eq!(rt; recall.play(0), Some(play_of_payload()));
    assert_eq!(rt; recall.play(1), None);
    let event = EventRecord {
        place: 5,
        code: 2,
        detail: 3,
    };
    assert_eq!(rt; recall.event(0), Some(event));
    assert_eq!(rt; recall.event_count(), 1);
    assert_eq!(rt;
        recall.bill(0),
        Some(BillRecord {
            place: 2,
            value: 500
        })
    );
    let voucher = VoucherRecord {
        place: 4,
        kind: 1,
        id: 77,
        value: 300,
    };
    assert_eq!(rt; recall.voucher(0), Some(voucher));
    assert!(rt; recall.seen(77));
    let mut again = [0; PAYLOAD_LEN];
    assert!(rt; recall.are_recorded());
    recall.write_image(&mut again);
    assert!(rt; again == payload);
    Ok(())
}

#[test]
fn a_payload_has_lists_by_its_rules(rt: HostRuntime) -> Result<(), Fail> {
    let mut recall = Recall::new(rt.alloc())?;
    let refused: [(usize, u8); 16] = [
        // Eleven plays, a byte behind the numbers of records, and a number for which no record stands.
        (317, 11),
        (324, 1),
        (319, 2),
        // Another game, the code of a pick in poker, a sixth turn, the colour of a third turn, the zero byte.
        (4240, 3),
        (4246, 5),
        (4247, 6),
        (4248, 4),
        (4249, 1),
        // Codes and kinds, and a place that is 0.
        (5964, 0),
        (5964, 9),
        (7724, 0),
        (7724, 3),
        (7663, 0),
        // Bytes behind the records.
        (4282, 1),
        (5973, 1),
        (16383, 1),
    ];
    for (place, byte) in refused {
        let mut payload = payload_of_one_each();
        put(&mut payload, place, &[byte]);
        assert!(rt; recall.load(&payload_of_one_each()));
        assert!(rt; !recall.load(&payload));
        assert_eq!(rt; recall.play(0), None);
        assert_eq!(rt; recall.voucher_count(), 0);
    }
    // The rest of the payload, a bet and an event's detail are no matter of the lists.
    for place in [0, 315, 344, 512, 4095, 4241, 5972] {
        let mut payload = payload_of_one_each();
        put(&mut payload, place, &[99]);
        assert!(rt; recall.load(&payload));
    }
    // Of two events the first has the later place.
    let mut payload = payload_of_one_each();
    put(&mut payload, 319, &[2]);
    put(&mut payload, 5980, &[5, 1]);
    assert!(rt; !recall.load(&payload));
    put(&mut payload, 5980, &[4]);
    assert!(rt; recall.load(&payload));
    assert_eq!(rt; recall.event_count(), 2);
    Ok(())
}

#[test]
fn full_lists_are_written_and_read(rt: HostRuntime) -> Result<(), Fail> {
    let mut recall = Recall::new(rt.alloc())?;
    for place in 1..102u64 {
        recall.note_event(&EventRecord {
            place,
            code: 1,
            detail: 0,
        });
    }
    for place in 1..37u64 {
        recall.note_voucher(&VoucherRecord {
            place,
            kind: 2,
            id: place,
            value: 100,
        });
    }
    for number in 1..12u64 {
        recall.note_play(&play_of(number));
        recall.note_bill(&BillRecord {
            place: number,
            value: 2000,
        });
    }
    let mut payload = [0xA5; PAYLOAD_LEN];
    assert!(rt; recall.are_recorded());
    recall.write_image(&mut payload);
    // The numbers of records, with what stands round them.
    assert!(rt; payload[315..326] == [0xA5, 0, 10, 0, 100, 0, 5, 0, 35, 0, 0]);
    assert!(rt; payload[343..345] == [0, 0xA5]);
    assert!(rt; payload[4095..4104] == [0xA5, 0, 0, 0, 0, 0, 0, 0, 11]);
    // The last place of the oldest play, then the newest event; the oldest event, then the newest bill.
    assert!(rt; payload[5955..5965] == [2, 0, 0, 0, 0, 0, 0, 0, 101, 1]);
    assert!(rt;
        payload[7639..7664]
            == [
                0, 0, 0, 0, 0, 0, 0, 2, 1, 0, 0, 0, 0, 0, 0, 0, 0, 0, 0, 0, 0, 0, 0, 0, 11
            ]
    );
    // The oldest voucher and the zeros behind it.
    assert!(rt;
        payload[8430..8453]
            == [
                0, 0, 0, 0, 0, 0, 0, 2, 2, 0, 0, 0, 0, 0, 0, 0, 2, 0, 0, 0, 100, 0, 0
            ]
    );
    let mut other = Recall::new(rt.alloc())?;
    assert!(rt; other.load(&payload));
    assert_eq!(rt; other.play(0), Some(play_of(11)));
    assert_eq!(rt; other.play(9), Some(play_of(2)));
    assert_eq!(rt; other.event_count(), 100);
    assert_eq!(rt; other.bill(4), recall.bill(4));
    assert_eq!(rt; other.voucher(34), recall.voucher(34));
    assert_eq!(rt; other.voucher_count(), 35);
    Ok(())
}
