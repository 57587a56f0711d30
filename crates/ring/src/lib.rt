// Batches in the ring: one read as a sequence of words, whether or not it wraps, one copied in.
#![tactic(auto)]

ghost use Rattle.std.specs.Prelude.{◌≡◌, ◌+◌, ◌≤◌, ◌<◌, ◌&&◌, length, get_or, ltb, leb};
ghost use Rattle.word.specs.Splice.{spliced};
ghost use Rattle.ring.specs.Segment.{LiesInRing, segment, batch_words};
ghost use Rattle.ring.specs.Read.{read_word};
ghost use Rattle.ring.specs.Copied.{copied_in};

// Whether a batch of `size` bytes at `offset` lies in a ring of `ring_size` bytes.
fn lies_in(ring_size: usize, offset: usize, size: usize) -> bool
    ensures { result ≡ ltb offset ring_size && leb size ring_size }
{
    (offset < ring_size) & (size <= ring_size)
}

// Byte i of the batch that starts at `offset`.
fn byte_at(ring: &[u8], offset: usize, i: usize) -> u8
    requires { (offset < length ring.now) × (i < length ring.now) }
    ensures { result ≡ get_or (segment ring.now offset (length ring.now)) i 0 }
{
    let tail = ring.len() - offset;
    if i < tail {
        ring[offset + i]
    } else {
        ring[i - tail]
    }
}

// One batch in the ring, shown as a sequence of words, whether or not it wraps.
#[derive(Clone, Copy)]
pub struct Reader<'a> {
    pub ring: &'a [u8],
    pub offset: usize,
    pub size: usize,
}

impl<'a> Reader<'a> {
    pub fn new(ring: &'a [u8], offset: usize, size: usize) -> Reader<'a>
        ensures { (result.ring ≡ ring.entry) × (result.offset ≡ offset) × (result.size ≡ size) }
    {
        Reader { ring, offset, size }
    }

    // How many words the batch has: none if it does not lie in the ring.
    pub fn word_count(self) -> usize
        ensures { result ≡ length (batch_words self.entry.ring.now self.entry.offset self.entry.size) }
    {
        if lies_in(self.ring.len(), self.offset, self.size) {
            self.size / 4
        } else {
            0
        }
    }

    // Word k of the batch, for any ring and numbers.
    pub fn word(self, k: usize) -> Option<u32>
        ensures { result ≡ read_word (batch_words self.entry.ring.now self.entry.offset self.entry.size) k }
    {
        if self.word_count() <= k {
            return None;
        }
        let ring = self.ring;
        let offset = self.offset;
        let i = 4 * k;
        let tail = ring.len() - offset;
        if i + 4 <= tail {
            return Some(word::read_le32(ring, offset + i));
        }
        if tail <= i {
            return Some(word::read_le32(ring, i - tail));
        }
        // The ring's end lies inside the word.
        Some(word::join_le32(
            byte_at(ring, offset, i),
            byte_at(ring, offset, i + 1),
            byte_at(ring, offset, i + 2),
            byte_at(ring, offset, i + 3),
        ))
    }
}

// Copies bytes one by one: the library's `copy_from_slice` makes a call of `memmove`.
fn copy(to: &mut [u8], from: &[u8])
    requires { length to.old ≡ length from.now }
    ensures { to.new ≡ from.now }
{
    for i in 0..from.len() {
        to[i] = from[i];
    }
}

// Copies bytes over those from `at` on.
#[tactic(auto, using(crate::proofs::Copied::put_spliced))]
fn copy_at(to: &mut [u8], at: usize, from: &[u8])
    requires { at + length from.now ≤ length to.old }
    ensures { to.new ≡ spliced at from.now to.old }
{
    let end = at + from.len();
    copy(&mut to[at..end], from);
}

// Copies a batch into the ring from `offset` on, in one part or two.
pub fn copy_in(ring: &mut [u8], offset: usize, batch: &[u8])
    requires { LiesInRing ring.old offset (length batch.now) }
    ensures { ring.new ≡ copied_in ring.old offset batch.now }
{
    let tail = ring.len() - offset;
    if batch.len() <= tail {
        copy_at(ring, offset, batch);
        return;
    }
    copy_at(ring, offset, &batch[..tail]);
    copy_at(ring, 0, &batch[tail..]);
}
