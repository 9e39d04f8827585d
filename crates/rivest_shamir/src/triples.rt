//! Up to sixteen words of three cells side by side in one: triple `t` has the cells from bit `3 * t` on, and its
//! message the bits from bit `2 * t` on. All of them go at once, by operations on whole words.

ghost use Rattle.std.specs.Prelude.{◌≡◌, ℕ, ◌+◌, ◌-◌, ◌*◌, ◌≤◌, ◌<◌, ◌^◌, true, IfSome, IfNone};
ghost use Rattle.wom_code.specs.Cells.{Carries, NoneCarries};
ghost use Rattle.wom_code.specs.Groups.{chunk_of};
ghost use Rattle.rivest_shamir.specs.Triples.{least_of, odd_of, others_of, with_sum};
ghost use Rattle.rivest_shamir.specs.Words.{message_of, is_least};

/// The first cell of each triple.
const FIRST: u64 = 0x2492_4924_9249;

/// The four messages of each byte, each with the sum of its bits, as triples.
const SPREAD: [u16; 256] = [
    0, 5, 6, 3, 40, 45, 46, 43, 48, 53, 54, 51, 24, 29, 30, 27, 320, 325, 326, 323, 360, 365, 366,
    363, 368, 373, 374, 371, 344, 349, 350, 347, 384, 389, 390, 387, 424, 429, 430, 427, 432, 437,
    438, 435, 408, 413, 414, 411, 192, 197, 198, 195, 232, 237, 238, 235, 240, 245, 246, 243, 216,
    221, 222, 219, 2560, 2565, 2566, 2563, 2600, 2605, 2606, 2603, 2608, 2613, 2614, 2611, 2584,
    2589, 2590, 2587, 2880, 2885, 2886, 2883, 2920, 2925, 2926, 2923, 2928, 2933, 2934, 2931, 2904,
    2909, 2910, 2907, 2944, 2949, 2950, 2947, 2984, 2989, 2990, 2987, 2992, 2997, 2998, 2995, 2968,
    2973, 2974, 2971, 2752, 2757, 2758, 2755, 2792, 2797, 2798, 2795, 2800, 2805, 2806, 2803, 2776,
    2781, 2782, 2779, 3072, 3077, 3078, 3075, 3112, 3117, 3118, 3115, 3120, 3125, 3126, 3123, 3096,
    3101, 3102, 3099, 3392, 3397, 3398, 3395, 3432, 3437, 3438, 3435, 3440, 3445, 3446, 3443, 3416,
    3421, 3422, 3419, 3456, 3461, 3462, 3459, 3496, 3501, 3502, 3499, 3504, 3509, 3510, 3507, 3480,
    3485, 3486, 3483, 3264, 3269, 3270, 3267, 3304, 3309, 3310, 3307, 3312, 3317, 3318, 3315, 3288,
    3293, 3294, 3291, 1536, 1541, 1542, 1539, 1576, 1581, 1582, 1579, 1584, 1589, 1590, 1587, 1560,
    1565, 1566, 1563, 1856, 1861, 1862, 1859, 1896, 1901, 1902, 1899, 1904, 1909, 1910, 1907, 1880,
    1885, 1886, 1883, 1920, 1925, 1926, 1923, 1960, 1965, 1966, 1963, 1968, 1973, 1974, 1971, 1944,
    1949, 1950, 1947, 1728, 1733, 1734, 1731, 1768, 1773, 1774, 1771, 1776, 1781, 1782, 1779, 1752,
    1757, 1758, 1755,
];

/// The words of least charge for the four messages of each byte, side by side.
const LEAST: [u16; 256] = [
    0, 2, 1, 4, 16, 18, 17, 20, 8, 10, 9, 12, 32, 34, 33, 36, 128, 130, 129, 132, 144, 146, 145,
    148, 136, 138, 137, 140, 160, 162, 161, 164, 64, 66, 65, 68, 80, 82, 81, 84, 72, 74, 73, 76,
    96, 98, 97, 100, 256, 258, 257, 260, 272, 274, 273, 276, 264, 266, 265, 268, 288, 290, 289,
    292, 1024, 1026, 1025, 1028, 1040, 1042, 1041, 1044, 1032, 1034, 1033, 1036, 1056, 1058, 1057,
    1060, 1152, 1154, 1153, 1156, 1168, 1170, 1169, 1172, 1160, 1162, 1161, 1164, 1184, 1186, 1185,
    1188, 1088, 1090, 1089, 1092, 1104, 1106, 1105, 1108, 1096, 1098, 1097, 1100, 1120, 1122, 1121,
    1124, 1280, 1282, 1281, 1284, 1296, 1298, 1297, 1300, 1288, 1290, 1289, 1292, 1312, 1314, 1313,
    1316, 512, 514, 513, 516, 528, 530, 529, 532, 520, 522, 521, 524, 544, 546, 545, 548, 640, 642,
    641, 644, 656, 658, 657, 660, 648, 650, 649, 652, 672, 674, 673, 676, 576, 578, 577, 580, 592,
    594, 593, 596, 584, 586, 585, 588, 608, 610, 609, 612, 768, 770, 769, 772, 784, 786, 785, 788,
    776, 778, 777, 780, 800, 802, 801, 804, 2048, 2050, 2049, 2052, 2064, 2066, 2065, 2068, 2056,
    2058, 2057, 2060, 2080, 2082, 2081, 2084, 2176, 2178, 2177, 2180, 2192, 2194, 2193, 2196, 2184,
    2186, 2185, 2188, 2208, 2210, 2209, 2212, 2112, 2114, 2113, 2116, 2128, 2130, 2129, 2132, 2120,
    2122, 2121, 2124, 2144, 2146, 2145, 2148, 2304, 2306, 2305, 2308, 2320, 2322, 2321, 2324, 2312,
    2314, 2313, 2316, 2336, 2338, 2337, 2340,
];

/// The number whose lowest `count` bits are set.
#[inline(always)]
fn ones(count: usize) -> u64
    requires { count < 64 }
    ensures { result ≡ 2 ^ count - 1 }
{
    (1 << count) - 1
}

/// All cells of each triple of which an odd number is charged.
#[inline(always)]
fn odd(cells: u64) -> u64
    ensures { (t : ℕ) → t < 16 → chunk_of 3 result t ≡ odd_of (chunk_of 3 cells t) }
{
    let first = (cells ^ cells >> 1 ^ cells >> 2) & FIRST;
    first | first << 1 | first << 2
}

/// Of each triple with a charged cell those that are not charged.
#[inline(always)]
fn others(cells: u64) -> u64
    ensures { (t : ℕ) → t < 16 → chunk_of 3 result t ≡ others_of (chunk_of 3 cells t) }
{
    let first = (cells | cells >> 1 | cells >> 2) & FIRST;
    (first | first << 1 | first << 2) ^ cells
}

/// The four messages of a byte, each with the sum of its bits, as triples.
#[inline(always)]
fn spread_byte(messages: u64, byte: usize) -> u64
    requires { byte < 4 }
    ensures spread { (t : ℕ) → t < 4 → chunk_of 3 result t ≡ with_sum (chunk_of 2 messages (4 * byte + t)) }
    ensures narrow { result < 2 ^ 12 }
{
    SPREAD[(messages >> (8 * byte) & 255) as usize] as u64
}

/// The two bits of each message and their sum, as a triple.
#[inline(always)]
fn spread(messages: u64) -> u64
    ensures { (t : ℕ) → t < 16 → chunk_of 3 result t ≡ with_sum (chunk_of 2 messages t) }
{
    spread_byte(messages, 0)
        | spread_byte(messages, 1) << 12
        | spread_byte(messages, 2) << 24
        | spread_byte(messages, 3) << 36
}

/// The words of least charge for the four messages of a byte.
#[inline(always)]
fn least_byte(messages: u64, byte: usize) -> u64
    requires { byte < 4 }
    ensures least { (t : ℕ) → t < 4 → chunk_of 3 result t ≡ least_of (chunk_of 2 messages (4 * byte + t)) }
    ensures narrow { result < 2 ^ 12 }
{
    LEAST[(messages >> (8 * byte) & 255) as usize] as u64
}

/// The words of least charge for messages over blank cells.
#[inline(always)]
fn least(messages: u64) -> u64
    ensures { (t : ℕ) → t < 16 → chunk_of 3 result t ≡ least_of (chunk_of 2 messages t) }
{
    least_byte(messages, 0)
        | least_byte(messages, 1) << 12
        | least_byte(messages, 2) << 24
        | least_byte(messages, 3) << 36
}

/// The messages that triples carry.
#[inline(always)]
pub fn decode_triples(cells: u64) -> u64
    ensures { (t : ℕ) → t < 16 → chunk_of 2 result t ≡ message_of (chunk_of 3 cells t) }
{
    let low = (cells >> 1 ^ cells >> 2) & FIRST;
    let high = (cells ^ cells >> 2) & FIRST;
    let pairs = low | high << 1;
    let fours = pairs & 0x0c30_c30c_30c3 | pairs >> 1 & 0x30c3_0c30_c30c;
    let bytes = fours & 0x00f0_0f00_f00f | fours >> 2 & 0x0f00_f00f_00f0;
    let halves = bytes & 0xff00_00ff | bytes >> 4 & 0x00ff_0000_ff00;
    halves & 0xffff | halves >> 8 & 0xffff_0000
}

/// The cells of the first `count` triples with each message over the old ones, or None where one does not take
/// its own.
///
/// Of a triple that carries another message one cell alone mends that. Where it is charged already, the two others do
/// so together.
#[inline(always)]
pub fn over_triples(count: usize, cells: u64, messages: u64) -> Option<u64>
    requires few { count ≤ 16 }
    ensures carried { IfSome result (λ new. (t : ℕ) → t < count → Carries message_of (chunk_of 3 cells t) (chunk_of 2 messages t) (chunk_of 3 new t)) }
    ensures given { IfSome result (λ new. (t : ℕ) → t < count → is_least (chunk_of 3 cells t) (chunk_of 2 messages t) (chunk_of 3 new t) ≡ true) }
    ensures narrow { IfSome result (λ new. new < 2 ^ (count * 3)) }
    ensures declined { IfNone result ((t : ℕ) × (t < count) × NoneCarries message_of 3 (chunk_of 3 cells t) (chunk_of 2 messages t)) }
{
    let front = ones(count * 3);
    if cells == 0 {
        return Some(least(messages) & front);
    }
    let one = others(spread(messages) ^ cells ^ odd(cells));
    let two = others(one & cells);
    if two & cells & front != 0 {
        return None;
    }
    Some((cells | one | two) & front)
}
