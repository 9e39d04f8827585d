//! Values from the worked example of the header word, and every fall of one cell of ten words.

ghost use Rattle.std.specs.Prelude.{◌≤◌};

use super::*;

fn word_of(header: &Header) -> [u8; 14]
    requires least_kind { 1 ≤ header.now.kind }
    requires greatest_kind { header.now.kind ≤ 4 }
{
    let mut word = [0; 14];
    spell(header, &mut word);
    word
}

#[test]
fn the_word_of_sector_5_is_spelled_and_read_back(rt: HostRuntime) {
    let header = Header {
        sector: 5,
        seq: 1,
        kind: 1,
    };
    let word = word_of(&header);
    assert_eq!(rt; word, [5, 0, 0, 0, 1, 0, 0, 0, 0, 0, 0, 0, 1, 0x64]);
    assert_eq!(rt; read(&word), Some(header));
}

#[test]
fn blank_bytes_and_a_word_of_no_kind_are_not_valid(rt: HostRuntime) {
    assert_eq!(rt; read(&[0; 14]), None);
    assert_eq!(rt; read(&[0, 0, 0, 0, 0, 0, 0, 0, 0, 0, 0, 0, 0, 0x68]), None);
}

#[test]
fn a_word_with_one_fallen_cell_is_not_valid(rt: HostRuntime) {
    for n in 0..10u32 {
        let seq = u64::MAX / 3 >> (6 * n);
        let word = word_of(&Header {
            sector: 0x9e37_79b9 >> n,
            seq,
            kind: (n % 4) as u8 + 1,
        });
        for cell in 0..112usize {
            let mut fallen = word;
            fallen[cell / 8] &= !(1 << (cell % 8));
            assert!(rt;
                fallen == word || read(&fallen) == None,
                "cell {cell} of word {n}"
            );
        }
    }
}
