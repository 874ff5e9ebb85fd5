// The four words of results.
ghost use Rattle.std.specs.Prelude.{◌≡◌, [], ◌∷◌, length};

pub fn put_out(out: &mut [u64], a: u64, b: u64, c: u64, d: u64)
    requires { length out.old ≡ 4 }
    ensures { out.new ≡ a ∷ b ∷ c ∷ d ∷ [] }
{
    out[0] = a;
    out[1] = b;
    out[2] = c;
    out[3] = d;
}
