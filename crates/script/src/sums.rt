// CRC-32 as zlib has it.
ghost use Rattle.std.specs.Prelude.{◌≡◌};
ghost use Rattle.script.specs.Sums.{crc32, crc_by, crc_table, step, steps};

fn crc_step(c: usize) -> usize
    ensures { result ≡ step c }
{
    if c % 2 == 1 {
        (c / 2) ^ 3988292384
    } else {
        c / 2
    }
}

fn crc_entry(i: usize) -> usize
    ensures { result ≡ steps 8 i }
{
    let mut c = i;
    for _ in 0..8usize {
        c = crc_step(c);
    }
    c
}

// What eight bits make of each byte.
pub fn crc_table() -> [usize; 256]
    ensures { result ≡ crc_table }
{
    let mut table = [0usize; 256];
    for (i, entry) in table.iter_mut().enumerate() {
        *entry = crc_entry(i);
    }
    table
}

// By the table of `crc_table`; any other gives what its entries say.
pub fn crc(b: &[u8], table: &[usize; 256]) -> usize
    ensures by { result ≡ crc_by table.now b.now }
    ensures right { table.now ≡ crc_table → result ≡ crc32 b.now }
{
    // Kept: as a fold over a closure a replay takes five times as long where the code runs unproved, with its tests.
    let mut c: usize = 4294967295;
    for &x in b {
        c = table[(c ^ usize::from(x)) % 256] ^ (c / 256);
    }
    c ^ 4294967295
}
