//! Known lists, at an entry of two numbers.
use crate::{Filed, Flight, crosses_threads, laws};

#[derive(Clone, Copy, Default)]
struct Sent {
    id: u32,
    port: u8,
}

impl Filed for Sent {
    ghost key_of = { λ sent. sent.id };

    fn key(&self) -> u32 {
        self.id
    }
}

#[test]
fn keeps_entries_in_order(rt: HostRuntime) {
    laws();
    let mut flight: Flight<Sent> = Flight::new();
    crosses_threads(&flight);
    assert!(rt; flight.is_empty());
    for (id, port) in [(5, 0), (7, 1), (5, 2), (7, 3)] {
        assert!(rt; !flight.full());
        flight.push(Sent { id, port });
    }
    assert_eq!(rt; flight.len(), 4);

    for (key, place, left) in [(7, 1, 3), (5, 0, 2), (7, 1, 1), (5, 0, 0)] {
        let oldest = flight.oldest(key).expect(&rt, "an entry waits");
        assert_eq!(rt; oldest, place);
        let port = flight.get(oldest).port;
        flight.set(
            oldest,
            Sent {
                id: key,
                port: port / 2,
            },
        );
        let taken = flight.take(oldest);
        assert_eq!(rt; (taken.id, taken.port), (key, port / 2));
        assert_eq!(rt; flight.len(), left);
    }
    assert_eq!(rt; flight.oldest(5), None);

    for id in 0..16 {
        assert!(rt; !flight.full());
        flight.push(Sent { id, port: 0 });
    }
    assert!(rt; flight.full());
}
