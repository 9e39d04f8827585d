//! Values from the worked example of taken bits and by counting cells by hand.

use super::*;

#[test]
fn cells_six_to_nine_of_a5_03(rt: HostRuntime) {
    assert_eq!(rt; take_bits(&[0xa5, 0x03], 6, 4), 14);
}

#[test]
fn four_cells_put_over_two_bytes_leave_the_others(rt: HostRuntime) {
    let mut row = [0xff, 0xff];
    put_bits(&mut row, 6, 4, 0b1010);
    assert_eq!(rt; row, [0xbf, 0xfe]);
}

#[test]
fn a_word_of_cells_has_the_first_byte_lowest(rt: HostRuntime) {
    let mut row = [0; 10];
    put_bits(&mut row, 8, 64, 0x0807_0605_0403_0201);
    assert_eq!(rt; row, [0, 1, 2, 3, 4, 5, 6, 7, 8, 0]);
    assert_eq!(rt; take_bits(&row, 8, 64), 0x0807_0605_0403_0201);
}

#[test]
fn twelve_cells_at_the_end_of_nine_bytes_leave_the_others(rt: HostRuntime) {
    let mut row = [0xff; 9];
    put_bits(&mut row, 60, 12, 0x5a5);
    assert_eq!(rt; row, [255, 255, 255, 255, 255, 255, 255, 0x5f, 0x5a]);
    assert_eq!(rt; take_bits(&row, 60, 12), 0x5a5);
}

#[test]
fn a_charged_cell_is_above_the_blank_row(rt: HostRuntime) {
    let blank = [0, 0];
    let mut row = [0, 0];
    set_bit(&mut row, 9);
    assert_eq!(rt; row, [0, 2]);
    assert!(rt; bit(&row, 9) && !bit(&row, 8));
    assert!(rt; is_above(&row, &blank) && !is_above(&blank, &row));
    assert!(rt; is_blank(&blank) && !is_blank(&row));
    assert_eq!(rt; charged(&[0xff, 0x01]), 9);
}
