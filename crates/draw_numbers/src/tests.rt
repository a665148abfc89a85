use super::next_draw;

// The generator is `minstd_rand` of the C++ standard, which states this draw of seed 1.
#[test]
fn the_ten_thousandth_draw_is_that_of_the_standard(rt: HostRuntime) {
    let mut x = 1;
    for _ in 0..10_000 {
        x = next_draw(x);
    }
    assert_eq!(rt; x, 399_268_537);
}
