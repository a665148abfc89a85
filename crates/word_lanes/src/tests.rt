use super::{extrapolate, first_mismatch};

#[test]
fn a_difference_in_the_last_word_is_found(rt: HostRuntime) {
    let a = [1, 2, 3, 4, 5, 6, 7, 8, 9];
    let b = [1, 2, 3, 4, 5, 6, 7, 8, 8];
    assert_eq!(rt; first_mismatch(&a, &b), Some(8));
}

#[test]
fn the_first_of_the_differences_is_found_at_every_place(rt: HostRuntime) {
    let a = [-1; 40];
    for length in 0..=40 {
        assert_eq!(rt; first_mismatch(&a[..length], &a[..length]), None);
        for place in 0..length {
            let mut one = a;
            one[place] = i64::MAX;
            assert_eq!(rt; first_mismatch(&a[..length], &one[..length]), Some(place));
            let mut two = one;
            two[length - 1] = 0;
            assert_eq!(rt; first_mismatch(&two[..length], &a[..length]), Some(place));
        }
    }
}

#[test]
fn a_word_is_guessed_from_the_two_before_it(rt: HostRuntime) {
    let rows = [
        (100, 20, -128, 127, 127),
        (i64::MAX, -1, i64::MIN, i64::MAX, -1),
        (i64::MIN, 0, i64::MIN, i64::MAX, 0),
        (i64::MIN, 1, i64::MIN, i64::MAX, -1),
        (i64::MAX, i64::MAX, 0, i64::MAX, i64::MAX),
        (-100, 100, -128, 127, -128),
        (5, 20, 0, 255, 0),
        (5, 9, 0, 255, 1),
        (7, -9, 7, 7, 7),
    ];
    for (last, before, low, high, guessed) in rows {
        assert!(rt; low <= high);
        let mut word = [0];
        extrapolate(&[last], &[before], &[low], &[high], &mut word);
        assert_eq!(rt; word, [guessed]);
        let mut words = [0; 11];
        extrapolate(
            &[last; 11],
            &[before; 11],
            &[low; 11],
            &[high; 11],
            &mut words,
        );
        assert_eq!(rt; words, [guessed; 11]);
    }
}

#[test]
fn lists_of_every_length_are_guessed_whole(rt: HostRuntime) {
    let mut last = [0; 40];
    let mut before = [0; 40];
    let mut guessed = [0; 40];
    for place in 0..40 {
        let square = i64::try_from(place * place).unwrap_or(0);
        last[place] = square;
        before[place] = -square;
        guessed[place] = (square * 3).min(1000);
    }
    for length in 0..=40 {
        let mut out = [-7; 40];
        extrapolate(
            &last[..length],
            &before[..length],
            &[-5; 40][..length],
            &[1000; 40][..length],
            &mut out[..length],
        );
        assert_eq!(rt; out[..length], guessed[..length]);
        assert_eq!(rt; out[length..], [-7; 40][length..]);
    }
}
