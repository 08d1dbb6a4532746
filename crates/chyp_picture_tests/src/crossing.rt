// Crossings of pictures and of pieces.
use crate::pictures::{associativity, bent, nothing, swap, two_in_a_row};
use crate::whole::is_whole;
use chyp_picture::{Picture, Piece, PieceEnd, crossing_count, crossings};
use std::process::Abort;
use std::test::Fail;

// How many crossings the picture has.
fn crossings_of(rt: &impl Abort, picture: &Picture) -> u64 {
    assert!(rt; is_whole(picture));
    crossings(picture)
}

#[test]
fn crossings_of_pictures(rt: HostRuntime) -> Result<(), Fail> {
    let alloc = rt.alloc();
    assert_eq!(rt; crossings_of(&rt, &two_in_a_row(alloc)?), 0);
    assert_eq!(rt; crossings_of(&rt, &swap(alloc)?), 1);
    assert_eq!(rt; crossings_of(&rt, &nothing(alloc)), 0);
    assert_eq!(rt; crossings_of(&rt, &associativity(alloc)?), 0);
    assert_eq!(rt; crossings_of(&rt, &bent(alloc)?), 1);
    Ok(())
}

// The piece between two ends, each a position and a port.
fn piece(left: (u32, u32), right: (u32, u32)) -> Piece {
    Piece {
        left: PieceEnd {
            position: left.0,
            port: left.1,
        },
        right: PieceEnd {
            position: right.0,
            port: right.1,
        },
    }
}

#[test]
fn pieces_that_share_an_end_do_not_cross(rt: HostRuntime) -> Result<(), Fail> {
    let alloc = rt.alloc();
    let cases = [
        ((1, 0), (0, 0), 1),
        ((1, 0), (2, 0), 0),
        ((0, 0), (0, 0), 0),
        ((1, 0), (1, 0), 0),
        ((0, 1), (0, 5), 1),
        ((1, 0), (1, 1), 0),
    ];
    for (left, right, count) in cases {
        let mut pieces = Vec::new(alloc);
        pieces.push(piece((0, 0), (1, 0)))?;
        pieces.push(piece(left, right))?;
        assert!(rt; pieces.len() < 3);
        assert_eq!(rt; crossing_count(alloc, pieces)?, count, "{left:?} {right:?}");
    }
    Ok(())
}

#[test]
fn many_pieces_the_other_way_round(rt: HostRuntime) -> Result<(), Fail> {
    let alloc = rt.alloc();
    let mut pieces = Vec::new(alloc);
    for position in 0..50000u32 {
        pieces.push(piece((position, 0), (50000 - position, 0)))?;
    }
    assert!(rt; pieces.len() < 1000000);
    assert_eq!(rt; crossing_count(alloc, pieces)?, 1249975000);
    Ok(())
}
