// The sort, and lists of searches, a list to a call.
ghost use Rattle.std.specs.Prelude.{◌≡◌};
ghost use Rattle.base.specs.Lists.{Asc};
ghost use Rattle.base.specs.Sort.{sort_of};

#[unsafe(no_mangle)]
pub extern "C" fn leaf_sort(a: &mut [u64])
    ensures { a.new ≡ sort_of a.old }
{
    keys::sort(a);
}

// Searches for each of xs and answers how many searches it has run. By index: to zip the lists is an instruction more for each search.
fn searches<F: Fn(u64) -> usize>(xs: &[u64], out: &mut [u64], search: F) -> usize
    requires { F.IsAlwaysCallable search }
{
    let n = xs.len().min(out.len());
    for (k, x) in xs[..n].iter().enumerate() {
        out[k] = search(*x) as u64;
    }
    n
}

// The keys ascend: the benchmark sees to that.
#[unsafe(no_mangle)]
pub extern "C" fn leaf_count_below(keys: &[u64], xs: &[u64], out: &mut [u64]) -> usize
    requires { Asc keys.now }
{
    searches(xs, out, |x| keys::count_below(keys, x))
}

#[unsafe(no_mangle)]
pub extern "C" fn leaf_count_below_u32(keys: &[u32], xs: &[u64], out: &mut [u64]) -> usize
    requires { Asc keys.now }
{
    searches(xs, out, |x| keys::count_below(keys, x))
}
