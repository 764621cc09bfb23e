//! Both groups at small examples.
ghost use Rattle.std.specs.Prelude.{◌≡◌};

use crate::fault::Fault;
use crate::group::Group;
use crate::lanes::LaneOrder;
use crate::powers::integer_power;
use crate::runner::Idle;
use crate::words::WrappedWord;
use std::test::Fail;

// x · y · y⁻¹, in any group.
fn there_and_back<G: Group>(x: G, y: G) -> G
    ensures { G.element x → G.element y → result ≡ x }
{
    x.product(y).product(y.inverse())
}

// Sends lane i to i + 1.
fn rotation() -> Result<LaneOrder, Fault> {
    LaneOrder::from_lanes([1, 2, 3, 4, 5, 6, 7, 8, 9, 10, 11, 12, 13, 14, 15, 0])
}

fn swap() -> Result<LaneOrder, Fault> {
    LaneOrder::from_lanes([1, 0, 2, 3, 4, 5, 6, 7, 8, 9, 10, 11, 12, 13, 14, 15])
}

// The place of the refusal by 5 of these lanes.
fn refused_at(lanes: [u8; 16]) -> Option<usize> {
    let report = LaneOrder::from_lanes(lanes).err()?.report();
    (report.number == 5).then_some(report.place)
}

// At each place i the lane (i + steps) % 16.
fn turned(steps: usize) -> [u8; 16] {
    let mut lanes = [0, 1, 2, 3, 4, 5, 6, 7, 8, 9, 10, 11, 12, 13, 14, 15];
    lanes.rotate_left(steps % 16);
    lanes
}

#[test]
fn powers_of_a_rotation(rt: HostRuntime) -> Result<(), Fail> {
    let rotation = rotation()?;
    for n in 0..17u8 {
        let raised = Idle::new().take(rotation).raise(n).end();
        assert_eq!(rt; raised.lanes, turned(usize::from(n)));
    }
    Ok(())
}

#[test]
fn inverse_of_a_rotation(rt: HostRuntime) -> Result<(), Fail> {
    let rotation = rotation()?;
    let unit = <LaneOrder as Group>::unit();
    let back = rotation.inverse();
    assert_eq!(rt; back.lanes, turned(15));
    assert_eq!(rt; rotation.product(back).lanes, unit.lanes);
    assert_eq!(rt; back.product(rotation).lanes, unit.lanes);
    assert_eq!(rt; integer_power(rotation, -1).lanes, back.lanes);
    assert_eq!(rt; integer_power(rotation, -16).lanes, unit.lanes);
    Ok(())
}

#[test]
fn the_left_order_is_read_at_the_right_one(rt: HostRuntime) -> Result<(), Fail> {
    let rotation = rotation()?;
    let swap = swap()?;
    assert_eq!(rt; rotation.product(swap).lanes[0], 2);
    assert_eq!(rt; swap.product(rotation).lanes[0], 0);
    Ok(())
}

#[test]
fn refused_lanes(rt: HostRuntime) {
    for (lanes, place) in [
        ([0, 1, 2, 3, 4, 2, 6, 7, 8, 9, 10, 11, 12, 13, 14, 15], 5),
        ([0, 1, 2, 3, 4, 5, 6, 7, 8, 9, 10, 11, 12, 13, 14, 16], 15),
        ([0, 16, 0, 3, 4, 5, 6, 7, 8, 9, 10, 11, 12, 13, 14, 15], 1),
        ([0, 0, 16, 3, 4, 5, 6, 7, 8, 9, 10, 11, 12, 13, 14, 15], 1),
    ] {
        assert_eq!(rt; refused_at(lanes), Some(place));
    }
}

#[test]
fn words_wrap(rt: HostRuntime) {
    for (x, opposite) in [
        (0, 0),
        (1, 0xffff_ffff),
        (0x8000_0000, 0x8000_0000),
        (0xffff_ffff, 1),
    ] {
        let word = WrappedWord { value: x };
        assert_eq!(rt; word.inverse().value, opposite);
        assert_eq!(rt; word.product(word.inverse()).value, 0);
        assert_eq!(rt;
            Idle::new().take(word).raise(2).end().value,
            x.wrapping_add(x)
        );
    }
}

#[test]
fn one_function_in_both_groups(rt: HostRuntime) -> Result<(), Fail> {
    let rotation = rotation()?;
    assert_eq!(rt; there_and_back(rotation, swap()?).lanes, rotation.lanes);
    let most = WrappedWord { value: 0xffff_ffff };
    assert_eq!(rt;
        there_and_back(most, WrappedWord { value: 5 }).value,
        most.value
    );
    Ok(())
}
