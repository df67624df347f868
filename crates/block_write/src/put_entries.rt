// The entries of a transform block, written. What the whole writer (`block_write`) does is in specs/.
ghost use Rattle.std.specs.Prelude.{◌≡◌, ◌+◌, ◌*◌, ◌≤◌, length};
ghost use Rattle.std.proofs.lemmas.List.Edits.{sets};
ghost use Rattle.block_read.specs.Content.{entries_bytes};
ghost use Rattle.block_write.specs.PutLaws.{bytes_of, head_counts};

use octets::write::put_three;

// The entries of parts, each by its kind and count, whose numbers start at off.
pub fn put_entries(out: &mut [u8], off: usize, heads: &[(usize, usize)])
    requires { (12 + 12 * length heads.now ≤ off) × (off + bytes_of (head_counts heads.now) ≤ length out.old) }
    ensures { out.new ≡ sets out.old 12 (entries_bytes off heads.now) }
{
    let mut next = off;
    for (i, &(kind, n)) in heads.iter().enumerate() {
        put_three(out, 12 + 12 * i, kind, next, n);
        next += 8 * n;
    }
}
