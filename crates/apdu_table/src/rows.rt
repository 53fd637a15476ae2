// The two tables, as data, one under the other. A row: the shape's number, the length of its Lc field, the least Lc, the length of its
// Le field; behind it the scope paper's own row. No other line of this crate knows a shape. That these are the rows of apdu_table_stated's
// specs/Rows.antt, in their order, is what `ordinary` and `strict` ensure. Numbers and no structs: the claims speak of any table of numbers.
ghost use Rattle.apdu_table_stated.specs.Promises.{OrdinaryRows, StrictRows};

const ORDINARY: [[u8; 4]; 7] = [
    [1, 0, 0, 0], // 1 | Instruction | empty |
    [2, 0, 0, 1], // 2 | Le1 | Le (1 byte) |
    [3, 1, 1, 0], // 3 | Lc1Data | Lc, data | Lc 1..255
    [4, 1, 1, 1], // 4 | Lc1DataLe1 | Lc, data, Le (1) | Lc 1..255
    [5, 3, 1, 0], // 5 | Lc3Data | 00, Lc (2), data | Lc 1..65535
    [7, 3, 0, 2], // 7 | Lc3DataLe2 | 00, Lc (2), data, Le (2) | Lc 0..65535
    [8, 0, 0, 3], // 8 | Le3 | 00, Le (2) |
];

// The same with another least Lc in row 7.
const STRICT: [[u8; 4]; 7] = [
    [1, 0, 0, 0], // 1 | Instruction | empty |
    [2, 0, 0, 1], // 2 | Le1 | Le (1 byte) |
    [3, 1, 1, 0], // 3 | Lc1Data | Lc, data | Lc 1..255
    [4, 1, 1, 1], // 4 | Lc1DataLe1 | Lc, data, Le (1) | Lc 1..255
    [5, 3, 1, 0], // 5 | Lc3Data | 00, Lc (2), data | Lc 1..65535
    [7, 3, 1, 2], // 7 | Lc3DataLe2 | 00, Lc (2), data, Le (2) | Lc 1..65535
    [8, 0, 0, 3], // 8 | Le3 | 00, Le (2) |
];

// Document 01's shapes, without the retired sixth.
pub fn ordinary() -> [[u8; 4]; 7]
    ensures { OrdinaryRows result }
{
    ORDINARY
}

// ISO 7816-3's seven cases.
pub fn strict() -> [[u8; 4]; 7]
    ensures { StrictRows result }
{
    STRICT
}
