// The memory that a line is held in, and that the machine is lent.
ghost use Rattle.std.specs.Prelude.{◌≡◌, length};

// A line of the script.
pub fn line() -> [u8; 65536]
    ensures { 65536 ≡ length result }
{
    [0; 65536]
}

// The machine's tables.
pub fn words() -> [u64; 11844]
    ensures { 11844 ≡ length result }
{
    [0; 11844]
}

// 256 frames.
pub fn frames() -> [u8; 1048576]
    ensures { 1048576 ≡ length result }
{
    [0; 1048576]
}

// The bytes of the files.
pub fn files() -> [u8; 262144]
    ensures { 262144 ≡ length result }
{
    [0; 262144]
}

// The starts that a call lists.
pub fn starts() -> [u64; 64]
    ensures { 64 ≡ length result }
{
    [0; 64]
}
