// Bodies that are a row of numbers, two bytes each.
ghost use Rattle.std.specs.Prelude.{◌≡◌, ℕ, ◌*◌, length, MatchOption};
ghost use Rattle.std.specs.List.{flat_map};
ghost use Rattle.records.specs.Bytes.{word};

// The body as a row of N numbers, or none where it has another length.
pub fn words<const N: usize>(body: &[u8]) -> Option<[u16; N]>
    ensures { MatchOption result (¬ (length body.now ≡ 2 * N)) (λ ws. (length ws ≡ N) × (flat_map word ws ≡ body.now)) }
{
    let (pairs, odd) = body.as_chunks::<2>();
    if !odd.is_empty() || pairs.len() != N {
        return None;
    }
    // by number: `map` wants to know that N is small, and `from_fn` tells of its calls one from another, which is no plainer
    // to follow than the loop; after a loop over the places by reference nothing is known of the row
    let mut ws = [0; N];
    for (i, pair) in pairs.iter().enumerate() {
        ws[i] = u16::from_le_bytes(*pair);
    }
    Some(ws)
}
