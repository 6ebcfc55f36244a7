// Words of 64 bits, low byte first.
ghost use Rattle.std.specs.Io.{ReadsAtMost};
ghost use Rattle.std.specs.Prelude.{◌≡◌, ◌%◌};

use std::io;

// Reads until buf is full or the file ends; how many bytes it put at the start of buf.
pub fn read_full<R: io::Read>(file: &mut R, buf: &mut [u8]) -> io::Result<usize>
    ensures { ReadsAtMost result buf.new }
{
    let mut done = 0;
    // A `while`, since a turn goes on by as many bytes as were read, and not by one.
    while done < buf.len() {
        let n = file.read(&mut buf[done..])?;
        if n == 0 {
            break;
        }
        done += n;
    }
    Ok(done)
}

// The bytes of the next word, 0 where the file ends first, and how many of them it had.
fn eight<R: io::Read>(file: &mut R) -> io::Result<([u8; 8], usize)> {
    let mut bytes = [0; 8];
    let got = read_full(file, &mut bytes)?;
    Ok((bytes, got))
}

// The next word of a record that has begun. Bytes past the file's end are 0, which the answers tell.
pub fn next<R: io::Read>(file: &mut R) -> io::Result<u64> {
    let (bytes, _) = eight(file)?;
    Ok(u64::from_le_bytes(bytes))
}

// The word that begins a record; where the file ends first, how many bytes it still had.
pub fn first<R: io::Read>(file: &mut R) -> io::Result<Result<u64, usize>> {
    let (bytes, got) = eight(file)?;
    Ok(if got == 8 {
        Ok(u64::from_le_bytes(bytes))
    } else {
        Err(got)
    })
}

// The next words, all over the slice.
pub fn fill<R: io::Read>(file: &mut R, into: &mut [u64]) -> io::Result<()> {
    for word in into.iter_mut() {
        *word = next(file)?;
    }
    Ok(())
}

// The next N words.
pub fn array<R: io::Read, const N: usize>(file: &mut R) -> io::Result<[u64; N]> {
    let mut words = [0; N];
    fill(file, &mut words)?;
    Ok(words)
}

// The low 32 bits of a word, as ids and rates have them.
pub fn half(word: u64) -> u32
    ensures { result ≡ word % 4294967296 }
{
    (word % 4294967296) as u32
}
