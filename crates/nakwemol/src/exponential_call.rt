// e^−u, for other languages: so that another program can be run with the one that the variogram takes.
ghost use Rattle.std.specs.Prelude.{◌≡◌, min, length, get_or};
ghost use Rattle.std.specs.Float.{nan};
ghost use Rattle.area.specs.Area.{written};
ghost use Rattle.exponential.specs.Exponential.{exp_neg};

// `exp_neg`: e^−u; 0 for an infinite u, a NaN for a NaN and for a u below zero.
#[unsafe(no_mangle)]
pub extern "C" fn nakwemol_exp_neg(u: f64) -> f64
    ensures { result ≡ exp_neg u }
{
    exponential::exp_neg(u)
}

// `exp_neg_each`: e^−u of each number of a list, as far as the area goes.
#[unsafe(no_mangle)]
pub extern "C" fn nakwemol_exp_neg_each(us: &[f64], out: &mut [f64])
    ensures { out.new ≡ written 0 (min (length us.now) (length out.old))
        (λ i. exp_neg (get_or us.now i nan)) out.old }
{
    exponential::exp_neg_each(us, out);
}
