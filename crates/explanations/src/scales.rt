/// How many digits a numeral has behind its point, the zeros at its end left out.
fn places_behind_point(numeral: &[u8]) -> usize {
    let mut behind_point = false;
    let mut count = 0usize;
    let mut places = 0;
    for byte in numeral {
        if behind_point {
            count = count.saturating_add(1);
            if *byte != b'0' {
                places = count;
            }
        }
        if *byte == b'.' {
            behind_point = true;
        }
    }
    places
}

/// The words that offer the least scale at which a numeral is whole; none where no scale does.
pub(crate) fn offered_scale(numeral: &[u8]) -> &'static str {
    match places_behind_point(numeral) {
        1 => "; with --scale 10 it is whole",
        2 => "; with --scale 100 it is whole",
        3 => "; with --scale 1000 it is whole",
        _ => "; no scale makes it whole, since 1000 is the greatest",
    }
}
