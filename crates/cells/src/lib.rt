// The one computation of the masked inversion: its 62 points, made straight through. Every product and every running sum is stored in its cell as soon as it is made,
// so the compiler has no sum to reorder; no two cells stand side by side, so it has no part to put beside its mask.
#![tactic(auto)]

ghost use Rattle.std.specs.Prelude.{◌≡◌, [], ◌∷◌, ℕ, ◌+◌, ◌*◌, ◌%◌, ◌<◌, length, get_or, set};
ghost use Rattle.fips197.specs.Field.{◌⊕◌};
ghost use Rattle.refusal.specs.Part.{on_length};
ghost use Rattle.tower.specs.Tower.{join};
ghost use Rattle.points.specs.Points.{masked_inverse, record_points};
ghost use Rattle.cells.specs.Cells.{entry, summed, at, MasksOf, NibblesOf, PairsOf, cells_after, cells_of_points, recorded};

use tower::Record;

mod lookup;

// What masks alone determine and later parts need: halves of the mask and of Q, rows of the product tables, and four points.
#[derive(Clone, Copy)]
struct Masks {
    m1: u32,
    m0: u32,
    q1: u32,
    q0: u32,
    row_m1: u64,
    row_t: u64,
    row_q1: u64,
    row_p30: u64,
    p4: u32,
    p8: u32,
    p18: u32,
    p22: u32,
}

// The halves of the masked byte, b, which is point 14, and the products of T.
#[derive(Clone, Copy)]
struct Nibbles {
    a1: u32,
    a0: u32,
    b: u32,
    p48: u32,
    p50: u32,
    p56: u32,
    p58: u32,
}

// The halves of b, point 28 and the products of point 30.
#[derive(Clone, Copy)]
struct Pairs {
    b1: u32,
    b0: u32,
    p28: u32,
    p32: u32,
    p34: u32,
    p40: u32,
    p42: u32,
}

// Point n, into its cell. The numbers of points are literals, or next to one, so their bound is asked here: a type of theirs would be made at every call.
fn put(cells: &mut [u8; 126], n: usize, value: u32)
    requires { n < 63 }
    ensures { cells.new ≡ set cells.old (n * 2) (value % 256) }
{
    cells[n * 2] = (value % 256) as u8;
}

// Point n, the sum of two values.
fn add(cells: &mut [u8; 126], n: usize, sum: u32, value: u32) -> u32
    requires { n < 63 }
    ensures { (result ≡ sum ⊕ value) × (cells.new ≡ set cells.old (n * 2) (result % 256)) }
{
    let next = sum ^ value;
    put(cells, n, next);
    next
}

// Point n, a product: number y of a row.
fn product(cells: &mut [u8; 126], n: usize, row: u64, y: u32) -> u32
    requires { n < 63 }
    ensures { (result ≡ entry row y) × (cells.new ≡ set cells.old (n * 2) (result % 256)) }
{
    let value = lookup::entry(row, y);
    put(cells, n, value);
    value
}

// Four running sums from point n on: to a mask, or a sum so far, four products are added in order.
fn add_four(cells: &mut [u8; 126], n: usize, mask: u32, p1: u32, p2: u32, p3: u32, p4: u32) -> u32
    requires { n < 60 }
    ensures { (result ≡ mask ⊕ p1 ⊕ p2 ⊕ p3 ⊕ p4) × (cells.new ≡ summed ((n, p1) ∷ (n + 1, p2) ∷ (n + 2, p3) ∷ (n + 3, p4) ∷ []) mask cells.old) }
{
    let sum = add(cells, n, mask, p1);
    let sum = add(cells, n + 1, sum, p2);
    let sum = add(cells, n + 2, sum, p3);
    add(cells, n + 3, sum, p4)
}

// Part 1, what masks alone determine: Q, then the mask, then r. Mask to mask tells nothing, and what the masked byte overwrites is mostly the record.
fn make_masks(cells: &mut [u8; 126], record: Record) -> Masks
    ensures { (a m : ℕ) → cells.old ≡ cells_after 0 a m «record» → (cells.new ≡ cells_after 1 a m «record») × MasksOf a m «record» result }
{
    let mask = cells[0];
    let q = lookup::high_nibble(record.qt);
    let q1 = lookup::high::<2>(q);
    let q0 = lookup::low::<2>(q);
    let p17 = add(cells, 17, q1, q0);
    let p18 = lookup::pair_square(p17);
    put(cells, 18, p18);
    let m1 = lookup::high_nibble(mask);
    let m0 = lookup::low_nibble(mask);
    let p3 = add(cells, 3, m1, m0);
    let p4 = lookup::nibble_square(p3);
    put(cells, 4, p4);
    let row_m1 = lookup::row(m1);
    let p8 = product(cells, 8, row_m1, m0);
    let p30 = lookup::exchange(u32::from(record.r));
    put(cells, 30, p30);
    let row_q1 = lookup::pair_row(q1);
    let row_p30 = lookup::pair_row(p30);
    let p22 = product(cells, 22, row_q1, q0);
    let row_t = lookup::row(lookup::low_nibble(record.qt));
    Masks {
        m1,
        m0,
        q1,
        q0,
        row_m1,
        row_t,
        row_q1,
        row_p30,
        p4,
        p8,
        p18,
        p22,
    }
}

// Part 2, the fourteen in nibbles, and the products of T. Each product has an operand of the one before it, and no part stands beside its mask.
fn make_nibbles(cells: &mut [u8; 126], masked: u8, record: Record, masks: Masks) -> Nibbles
    ensures { (m : ℕ) → MasksOf masked m «record» masks → cells.old ≡ cells_after 1 masked m «record» → (cells.new ≡ cells_after 2 masked m «record») × NibblesOf masked m «record» result }
{
    let a1 = lookup::high_nibble(masked);
    let a0 = lookup::low_nibble(masked);
    let p1 = add(cells, 1, a1, a0);
    let p2 = lookup::nibble_square(p1);
    put(cells, 2, p2);
    let row_a1 = lookup::row(a1);
    let p56 = product(cells, 56, masks.row_t, a1);
    let p5 = product(cells, 5, row_a1, a0);
    let p48 = product(cells, 48, masks.row_t, a0);
    let p7 = product(cells, 7, masks.row_m1, a0);
    let p58 = product(cells, 58, masks.row_t, masks.m1);
    let p50 = product(cells, 50, masks.row_t, masks.m0);
    let p6 = product(cells, 6, row_a1, masks.m0);
    let p9 = add(cells, 9, lookup::high_nibble(record.qt), p2);
    let p10 = add(cells, 10, p9, masks.p4);
    let b = add_four(cells, 11, p10, p5, p6, p7, masks.p8);
    Nibbles {
        a1,
        a0,
        b,
        p48,
        p50,
        p56,
        p58,
    }
}

// Part 3, the same in pairs, of b under the mask Q, and the products of point 30.
fn make_pairs(cells: &mut [u8; 126], record: Record, masks: Masks, b: u32) -> Pairs
    ensures { (a m : ℕ) → MasksOf a m «record» masks → b ≡ at 14 a m «record» → cells.old ≡ cells_after 2 a m «record» → (cells.new ≡ cells_after 3 a m «record») × PairsOf a m «record» result }
{
    let b1 = lookup::high::<2>(b);
    let b0 = lookup::low::<2>(b);
    let p15 = add(cells, 15, b1, b0);
    let p16 = lookup::pair_square(p15);
    put(cells, 16, p16);
    let row_b1 = lookup::pair_row(b1);
    let p40 = product(cells, 40, masks.row_p30, b1);
    let p19 = product(cells, 19, row_b1, b0);
    let p32 = product(cells, 32, masks.row_p30, b0);
    let p21 = product(cells, 21, masks.row_q1, b0);
    let p42 = product(cells, 42, masks.row_p30, masks.q1);
    let p34 = product(cells, 34, masks.row_p30, masks.q0);
    let p20 = product(cells, 20, row_b1, masks.q0);
    let p23 = add(cells, 23, u32::from(record.r), p16);
    let p24 = add(cells, 24, p23, masks.p18);
    let p28 = add_four(cells, 25, p24, p19, p20, p21, masks.p22);
    Pairs {
        b1,
        b0,
        p28,
        p32,
        p34,
        p40,
        p42,
    }
}

// Part 4, the inverse of the pair, and with it e under the mask T: points 38 and 46 joined.
fn make_exchanged(cells: &mut [u8; 126], record: Record, masks: Masks, pairs: Pairs) -> u32
    ensures { (a m : ℕ) → MasksOf a m «record» masks → PairsOf a m «record» pairs → cells.old ≡ cells_after 3 a m «record» → (cells.new ≡ cells_after 4 a m «record») × (result ≡ join 2 (at 38 a m «record») (at 46 a m «record»)) }
{
    let p29 = lookup::exchange(pairs.p28);
    put(cells, 29, p29);
    let row_p29 = lookup::pair_row(p29);
    let p39 = product(cells, 39, row_p29, pairs.b1);
    let p31 = product(cells, 31, row_p29, pairs.b0);
    let p41 = product(cells, 41, row_p29, masks.q1);
    let p33 = product(cells, 33, row_p29, masks.q0);
    let t = lookup::low_nibble(record.qt);
    let t1 = lookup::high::<2>(t);
    let p38 = add_four(cells, 35, t1, p31, pairs.p32, p33, pairs.p34);
    let t0 = lookup::low::<2>(t);
    let p46 = add_four(cells, 43, t0, p39, pairs.p40, p41, pairs.p42);
    lookup::joined::<2>(p38, p46)
}

// Part 5, the masked inverse under the mask S: points 54 and 62 joined.
fn make_inverse(cells: &mut [u8; 126], record: Record, masks: Masks, nibbles: Nibbles, e: u32) -> u8
    ensures { (a m : ℕ) → MasksOf a m «record» masks → NibblesOf a m «record» nibbles → e ≡ join 2 (at 38 a m «record») (at 46 a m «record») → cells.old ≡ cells_after 4 a m «record» → (cells.new ≡ cells_after 5 a m «record») × (result ≡ masked_inverse a m «record») }
{
    let row_e = lookup::row(e);
    let p47 = product(cells, 47, row_e, nibbles.a0);
    let p55 = product(cells, 55, row_e, nibbles.a1);
    let p49 = product(cells, 49, row_e, masks.m0);
    let p57 = product(cells, 57, row_e, masks.m1);
    let s1 = lookup::high_nibble(record.s);
    let p54 = add_four(cells, 51, s1, p47, nibbles.p48, p49, nibbles.p50);
    let s0 = lookup::low_nibble(record.s);
    let p62 = add_four(cells, 59, s0, p55, nibbles.p56, p57, nibbles.p58);
    lookup::join_nibbles(p54, p62)
}

// The 62 points, each left in its cell, and the masked inverse. The mask comes in cell 0, so that no register carries it beside the masked byte.
// The products are taken in such an order that neither a register nor the flags go from a part to its mask; the running sums keep the order of rule 2.3.
#[inline(never)]
fn make_points(cells: &mut [u8; 126], masked: u8, record: Record) -> u8
    requires { cells.old ≡ cells_after 0 masked (get_or cells.old 0 0) «record» }
    ensures { (cells.new ≡ cells_after 5 masked (get_or cells.old 0 0) «record») × (result ≡ masked_inverse masked (get_or cells.old 0 0) «record») }
{
    let masks = make_masks(cells, record);
    let nibbles = make_nibbles(cells, masked, record, masks);
    let pairs = make_pairs(cells, record, masks, nibbles.b);
    let e = make_exchanged(cells, record, masks, pairs);
    make_inverse(cells, record, masks, nibbles, e)
}

const CELLS: [u8; 62] = [
    2, 4, 6, 8, 10, 12, 14, 16, 18, 20, 22, 24, 26, 28, 30, 32, 34, 36, 38, 40, 42, 44, 46, 48, 50,
    52, 54, 56, 58, 60, 62, 64, 66, 68, 70, 72, 74, 76, 78, 80, 82, 84, 86, 88, 90, 92, 94, 96, 98,
    100, 102, 104, 106, 108, 110, 112, 114, 116, 118, 120, 122, 124,
];

// The points from their cells to the buffer, one at a time: the table keeps the compiler from taking many at once.
fn write_points(cells: &[u8; 126], points: &mut [u8])
    requires { length points.old ≡ 62 }
    ensures { points.new ≡ recorded 62 cells.now points.old }
{
    for i in 0..62 {
        points[i] = cells[usize::from(CELLS[i])];
    }
}

// The masked inversion on tower bytes, its points left in a buffer of 62 bytes; any other is left as it is.
pub fn invert_points(masked: u8, mask: u8, record: Record, points: &mut [u8]) -> u8
    ensures { (result ≡ masked_inverse masked mask «record») × (points.new ≡ on_length 62 (λ _. record_points masked mask «record») points.old) }
{
    let mut cells = [0u8; 126];
    cells[0] = mask;
    let inverse = make_points(&mut cells, masked, record);
    if points.len() == 62 {
        write_points(&cells, points);
    }
    inverse
}

// The same, its points left nowhere.
pub fn invert(masked: u8, mask: u8, record: Record) -> u8
    ensures { result ≡ masked_inverse masked mask «record» }
{
    invert_points(masked, mask, record, &mut [])
}
