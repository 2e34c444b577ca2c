// Bit steps of ISO/IEC 13818-1, Annex A: eight bytes enter the register at once.
#![tactic(auto)]

ghost use Rattle.std.specs.Prelude.{◌≡◌, ◌*◌, ◌%◌, ◌<◌, ◌≤◌};
ghost use Rattle.crc_steps.specs.BitSteps.{bit_steps, bits_enter};
ghost use Rattle.crc_steps.specs.StepTable.{nibble_entry, NibbleTables};

// The register after eight more bytes: the last four of `first`, and then those of `second`.
pub fn eight_bytes_enter(register: u32, first: u64, second: u64) -> u32
    ensures { result ≡ bits_enter 32 (bits_enter 32 register first) second }
{
    by_tables(&NIBBLE_TABLES, register, first, second)
}

// The same, by tables. (Lent, with their rule in a `requires`: as a struct with the rule for its ghost field they were copied to the stack in each turn, which took three times as long.)
// Only what `first` brings waits for the turn before, and so it is added last.
#[tactic(auto, using(crate::proofs::Nibbles::two_words))]
fn by_tables(tables: &[[u32; 16]; 16], register: u32, first: u64, second: u64) -> u32
    requires { NibbleTables tables.now }
    ensures { result ≡ bits_enter 32 (bits_enter 32 register first) second }
{
    four_bytes(tables, 0, second) ^ four_bytes(tables, 8, u64::from(register) ^ first)
}

// What four bytes bring into a register of zero with so many times four bits behind them: the sum of what each four bits of them bring.
#[tactic(auto, using(crate::proofs::Nibbles::no_four, crate::proofs::Nibbles::next_four))]
fn four_bytes(tables: &[[u32; 16]; 16], behind: usize, bytes: u64) -> u32
    requires { NibbleTables tables.now × (behind ≤ 8) }
    ensures { result ≡ bit_steps (behind * 4) (bits_enter 32 0 bytes) }
{
    let mut sum = 0;
    for n in 0..8 {
        sum ^= nibble(tables, n + behind, bytes >> (n * 4));
    }
    sum
}

// What the last four bits of i bring with j times four bits behind them.
fn nibble(tables: &[[u32; 16]; 16], j: usize, i: u64) -> u32
    requires { NibbleTables tables.now × (j < 16) }
    ensures { result ≡ nibble_entry j (i % 16) }
{
    tables[j][(i % 16) as usize]
}

// Entry i of table j is 4 * (j + 1) bit steps on i placed in the top four bits: what i brings with j times four bits behind it.
const NIBBLE_TABLES: [[u32; 16]; 16] = [
    [
        0x00000000, 0x04c11db7, 0x09823b6e, 0x0d4326d9, 0x130476dc, 0x17c56b6b, 0x1a864db2,
        0x1e475005, 0x2608edb8, 0x22c9f00f, 0x2f8ad6d6, 0x2b4bcb61, 0x350c9b64, 0x31cd86d3,
        0x3c8ea00a, 0x384fbdbd,
    ],
    [
        0x00000000, 0x4c11db70, 0x9823b6e0, 0xd4326d90, 0x34867077, 0x7897ab07, 0xaca5c697,
        0xe0b41de7, 0x690ce0ee, 0x251d3b9e, 0xf12f560e, 0xbd3e8d7e, 0x5d8a9099, 0x119b4be9,
        0xc5a92679, 0x89b8fd09,
    ],
    [
        0x00000000, 0xd219c1dc, 0xa0f29e0f, 0x72eb5fd3, 0x452421a9, 0x973de075, 0xe5d6bfa6,
        0x37cf7e7a, 0x8a484352, 0x5851828e, 0x2abadd5d, 0xf8a31c81, 0xcf6c62fb, 0x1d75a327,
        0x6f9efcf4, 0xbd873d28,
    ],
    [
        0x00000000, 0x10519b13, 0x20a33626, 0x30f2ad35, 0x41466c4c, 0x5117f75f, 0x61e55a6a,
        0x71b4c179, 0x828cd898, 0x92dd438b, 0xa22feebe, 0xb27e75ad, 0xc3cab4d4, 0xd39b2fc7,
        0xe36982f2, 0xf33819e1,
    ],
    [
        0x00000000, 0x01d8ac87, 0x03b1590e, 0x0269f589, 0x0762b21c, 0x06ba1e9b, 0x04d3eb12,
        0x050b4795, 0x0ec56438, 0x0f1dc8bf, 0x0d743d36, 0x0cac91b1, 0x09a7d624, 0x087f7aa3,
        0x0a168f2a, 0x0bce23ad,
    ],
    [
        0x00000000, 0x1d8ac870, 0x3b1590e0, 0x269f5890, 0x762b21c0, 0x6ba1e9b0, 0x4d3eb120,
        0x50b47950, 0xec564380, 0xf1dc8bf0, 0xd743d360, 0xcac91b10, 0x9a7d6240, 0x87f7aa30,
        0xa168f2a0, 0xbce23ad0,
    ],
    [
        0x00000000, 0xdc6d9ab7, 0xbc1a28d9, 0x6077b26e, 0x7cf54c05, 0xa098d6b2, 0xc0ef64dc,
        0x1c82fe6b, 0xf9ea980a, 0x258702bd, 0x45f0b0d3, 0x999d2a64, 0x851fd40f, 0x59724eb8,
        0x3905fcd6, 0xe5686661,
    ],
    [
        0x00000000, 0xf7142da3, 0xeae946f1, 0x1dfd6b52, 0xd1139055, 0x2607bdf6, 0x3bfad6a4,
        0xcceefb07, 0xa6e63d1d, 0x51f210be, 0x4c0f7bec, 0xbb1b564f, 0x77f5ad48, 0x80e180eb,
        0x9d1cebb9, 0x6a08c61a,
    ],
    [
        0x00000000, 0x490d678d, 0x921acf1a, 0xdb17a897, 0x20f48383, 0x69f9e40e, 0xb2ee4c99,
        0xfbe32b14, 0x41e90706, 0x08e4608b, 0xd3f3c81c, 0x9afeaf91, 0x611d8485, 0x2810e308,
        0xf3074b9f, 0xba0a2c12,
    ],
    [
        0x00000000, 0x83d20e0c, 0x036501af, 0x80b70fa3, 0x06ca035e, 0x85180d52, 0x05af02f1,
        0x867d0cfd, 0x0d9406bc, 0x8e4608b0, 0x0ef10713, 0x8d23091f, 0x0b5e05e2, 0x888c0bee,
        0x083b044d, 0x8be90a41,
    ],
    [
        0x00000000, 0x1b280d78, 0x36501af0, 0x2d781788, 0x6ca035e0, 0x77883898, 0x5af02f10,
        0x41d82268, 0xd9406bc0, 0xc26866b8, 0xef107130, 0xf4387c48, 0xb5e05e20, 0xaec85358,
        0x83b044d0, 0x989849a8,
    ],
    [
        0x00000000, 0xb641ca37, 0x684289d9, 0xde0343ee, 0xd08513b2, 0x66c4d985, 0xb8c79a6b,
        0x0e86505c, 0xa5cb3ad3, 0x138af0e4, 0xcd89b30a, 0x7bc8793d, 0x754e2961, 0xc30fe356,
        0x1d0ca0b8, 0xab4d6a8f,
    ],
    [
        0x00000000, 0x4f576811, 0x9eaed022, 0xd1f9b833, 0x399cbdf3, 0x76cbd5e2, 0xa7326dd1,
        0xe86505c0, 0x73397be6, 0x3c6e13f7, 0xed97abc4, 0xa2c0c3d5, 0x4aa5c615, 0x05f2ae04,
        0xd40b1637, 0x9b5c7e26,
    ],
    [
        0x00000000, 0xe672f7cc, 0xc824f22f, 0x2e5605e3, 0x9488f9e9, 0x72fa0e25, 0x5cac0bc6,
        0xbadefc0a, 0x2dd0ee65, 0xcba219a9, 0xe5f41c4a, 0x0386eb86, 0xb958178c, 0x5f2ae040,
        0x717ce5a3, 0x970e126f,
    ],
    [
        0x00000000, 0x5ba1dcca, 0xb743b994, 0xece2655e, 0x6a466e9f, 0x31e7b255, 0xdd05d70b,
        0x86a40bc1, 0xd48cdd3e, 0x8f2d01f4, 0x63cf64aa, 0x386eb860, 0xbecab3a1, 0xe56b6f6b,
        0x09890a35, 0x5228d6ff,
    ],
    [
        0x00000000, 0xadd8a7cb, 0x5f705221, 0xf2a8f5ea, 0xbee0a442, 0x13380389, 0xe190f663,
        0x4c4851a8, 0x79005533, 0xd4d8f2f8, 0x26700712, 0x8ba8a0d9, 0xc7e0f171, 0x6a3856ba,
        0x9890a350, 0x3548049b,
    ],
];
