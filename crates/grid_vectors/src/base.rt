//! The laws of joined symmetries, and where the lists of symmetries and of directions have each.
use grid::Direction;
use grid_base::Symmetry;
use grid_base::laws::{identity_is_neutral, inverse_undoes, stands_in_all, then_is_associative};
use grid_near::laws::{stands_among_four, stands_in_all as direction_stands_in_all};
use test_support::fixtures::SYMMETRIES;

#[test]
fn joined_symmetries_are_a_group(rt: HostRuntime) {
    for first in SYMMETRIES {
        assert_eq!(rt; identity_is_neutral(first), (first, first));
        assert_eq!(rt;
            inverse_undoes(first),
            (Symmetry::Identity, Symmetry::Identity)
        );
        for second in SYMMETRIES {
            for third in SYMMETRIES {
                let (left, right) = then_is_associative(first, second, third);
                assert_eq!(rt; left, right);
            }
        }
    }
}

#[test]
fn all_symmetries_stand_in_their_order(rt: HostRuntime) {
    for (place, symmetry) in SYMMETRIES.iter().enumerate() {
        assert_eq!(rt; stands_in_all(*symmetry), place);
    }
}

#[test]
fn all_directions_stand_in_their_order(rt: HostRuntime) {
    for (place, way) in Direction::ALL.iter().enumerate() {
        assert_eq!(rt; direction_stands_in_all(*way), place);
        assert_eq!(rt; stands_among_four(*way), place / 2);
    }
}
