//! The stored worths of a row.

use rows::Worths;

fn count_of_worths(worths: &[i128]) -> Option<usize> {
    Some(Worths::new(worths)?.as_slice().len())
}

// A block has 1 to 8 worths.
#[test]
fn one_to_eight_worths(rt: HostRuntime) {
    let worths = [7i128; 9];
    assert_eq!(rt; count_of_worths(&worths[..0]), None);
    assert_eq!(rt; count_of_worths(&worths[..1]), Some(1));
    assert_eq!(rt; count_of_worths(&worths[..8]), Some(8));
    assert_eq!(rt; count_of_worths(&worths), None);
}
