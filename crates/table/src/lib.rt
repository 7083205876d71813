// Tables that a caller lends: a list in a table of another length, and zeros after it.
#![tactic(auto)]

ghost use Rattle.std.specs.Prelude.{◌≡◌, [], length};
ghost use Rattle.table.specs.Fitted.{fitted};

// All zero.
#[tactic(auto, using(crate::proofs::Fitting::zeros_fitted))]
pub fn clear(sizes: &mut [u64])
    ensures { sizes.new ≡ fitted (length sizes.old) [] }
{
    sizes.fill(0);
}

// All zero.
#[tactic(auto, using(crate::proofs::Fitting::zeros_fitted))]
pub fn clear_findings(findings: &mut [u32])
    ensures { findings.new ≡ fitted (length findings.old) [] }
{
    findings.fill(0);
}
