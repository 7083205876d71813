// Findings: endless types, and impls that lack a trait's fields.
#![tactic(auto)]

ghost use Rattle.std.specs.Prelude.{◌≡◌, [], ◌∷◌, ◌*◌, ◌<◌, ◌^◌, set};
ghost use Rattle.std.proofs.lemmas.List.Edits.{sets};
ghost use Rattle.findings.specs.Finding.{rows_of};

#[derive(Clone, Copy)]
pub struct Finding {
    pub class: u32,
    pub slot: u32,
    pub offset: u32,
    pub length: u32,
    pub a: u32,
    pub b: u32,
}

// What the walk for endless types goes by: the messages on the direct path, the slots visited, and the findings so far.
#[derive(Clone, Copy)]
pub struct RecursionState {
    pub path: [bool; 512],
    pub visited: [bool; 512],
    pub count: u64,
}

// Which slot a type names, if it is a name.
#[derive(Clone, Copy)]
pub enum Value {
    Id(u64),
    NotName,
}

// One finding, behind the first `count`; what has no place is left out.
pub fn put_finding(findings: &mut [u32], count: u64, finding: Finding)
    requires { count < 2 ^ 60 }
    ensures { findings.new ≡ sets findings.old (6 * count) (rows_of (finding ∷ [])) }
{
    let at = (6 * count) as usize;
    let row = [
        finding.class,
        finding.slot,
        finding.offset,
        finding.length,
        finding.a,
        finding.b,
    ];
    for (i, number) in row.iter().enumerate() {
        // By index: of what is written through `get_mut` of a slice nothing is known afterwards.
        if at + i < findings.len() {
            findings[at + i] = *number;
        }
    }
}
