//! Rows of refused plans.

/// A plan that is refused, and the line that is reported of it.
pub struct PlanCase {
    /// The bytes of the plan.
    pub plan: &'static [u8],
    /// The one line of the report: `plan`, the refused line and its cause.
    pub report: &'static [u8],
}

/// The number of the exit status of a refused plan.
pub const PLAN_STATUS: u8 = 3;

/// Plans that are refused, each for the first refused line and its first cause.
pub fn plans() -> &'static [PlanCase] {
    &PLANS
}

static PLANS: [PlanCase; 49] = [
    PlanCase {
        plan: b"",
        report: b"plan,1,nostart\n",
    },
    PlanCase {
        plan: b"# note\n\n",
        report: b"plan,3,nostart\n",
    },
    PlanCase {
        plan: b"\xEF\xBB\xBF",
        report: b"plan,1,nostart\n",
    },
    PlanCase {
        plan: b"item,FOOD,\n",
        report: b"plan,1,nostart\n",
    },
    PlanCase {
        plan: b"item,FOOD,\nstart,2021\n",
        report: b"plan,1,nostart\n",
    },
    PlanCase {
        plan: b"begin,2021\n",
        report: b"plan,1,form\n",
    },
    PlanCase {
        plan: b"start,21\n",
        report: b"plan,1,form\n",
    },
    PlanCase {
        plan: b"start,2021,\n",
        report: b"plan,1,form\n",
    },
    PlanCase {
        plan: b" start,2021\n",
        report: b"plan,1,form\n",
    },
    PlanCase {
        plan: b"start,1899\n",
        report: b"plan,1,year\n",
    },
    PlanCase {
        plan: b"start,2201\n",
        report: b"plan,1,year\n",
    },
    PlanCase {
        plan: b"start,2021\nstart,2021\n",
        report: b"plan,2,twice\n",
    },
    PlanCase {
        plan: b"start,2021\nstart,1899\n",
        report: b"plan,2,twice\n",
    },
    PlanCase {
        plan: b"start,2021\nitem,FOOD,\nitem,FOOD,\n",
        report: b"plan,3,twice\n",
    },
    PlanCase {
        plan: b"start,2021\nitem,FOOD\n",
        report: b"plan,2,form\n",
    },
    PlanCase {
        plan: b"start,2021\nitem,,\n",
        report: b"plan,2,form\n",
    },
    PlanCase {
        plan: b"start,2021\nitem,FO OD,\n",
        report: b"plan,2,form\n",
    },
    PlanCase {
        plan: b"start,2021\nitem,NNNNNNNNNNNNNNNNNNNNNNNNNNNNNNNNN,\n",
        report: b"plan,2,form\n",
    },
    PlanCase {
        plan: b"start,2021\nitem,FO\rOD,\n",
        report: b"plan,2,form\n",
    },
    PlanCase {
        plan: b"start,2021\n# two\n\nitem,FOOD,,\n",
        report: b"plan,4,form\n",
    },
    PlanCase {
        plan: b"start,2021\n#aaaaaaaaaaaaaaaaaaaaaaaaaaaaaaaaaaaaaaaaaaaaaaaaaaaaaaaaaaaaaaaaaaaaaaaaaaaaaaaaaaaaaaaaaaaaaaaaaaaaaaaaaaaaaaaaaaaaaaaaaaaaaaaaaaaaaaaaaaaaaaaaaaaaaaaaaaaaaaaaaaaaaaaaaaaaaaaaaaaaaaaaaaaaaaaaaaaaaaaaaaaaaaaaaaaaaaaaaaaaaaaaaaaaaaaaaaaaaaaaaaaaaaaaaaaaaaaa\n",
        report: b"plan,2,form\n",
    },
    PlanCase {
        plan: b"start,2021\nitem,A,B\n",
        report: b"plan,2,noparent\n",
    },
    PlanCase {
        plan: b"item,A,B\n",
        report: b"plan,1,nostart\n",
    },
    PlanCase {
        plan: b"start,2021\nitem,A,A\n",
        report: b"plan,2,noparent\n",
    },
    PlanCase {
        plan: b"start,2021\nitem,A,B\nitem,B,\n",
        report: b"plan,2,noparent\n",
    },
    PlanCase {
        plan: b"start,2021\nitem,A,\nitem,B,a\n",
        report: b"plan,3,noparent\n",
    },
    PlanCase {
        plan: b"start,2021\nitem,A,\nitem,B, A\n",
        report: b"plan,3,noparent\n",
    },
    PlanCase {
        plan: b"start,2021\nitem,A,\nitem,A,B\n",
        report: b"plan,3,twice\n",
    },
    PlanCase {
        plan: b"start,2021\nitem,A B,C\n",
        report: b"plan,2,form\n",
    },
    PlanCase {
        plan: b"start,2021\nitem,A,\nitem,B,A\nitem,C,B\nitem,D,E\n",
        report: b"plan,5,noparent\n",
    },
    PlanCase {
        plan: b"start,2021\nitem,A,\nitem,B,A,\n",
        report: b"plan,3,form\n",
    },
    PlanCase {
        plan: b"reference,2021\nstart,2021\n",
        report: b"plan,1,nostart\n",
    },
    PlanCase {
        plan: b"start,2021\nreference,2020\n",
        report: b"plan,2,year\n",
    },
    PlanCase {
        plan: b"start,2021\nreference,2085\n",
        report: b"plan,2,year\n",
    },
    PlanCase {
        plan: b"start,2021\nreference,2084\nreference,2085\n",
        report: b"plan,3,twice\n",
    },
    PlanCase {
        plan: b"start,2021\nreference,21\n",
        report: b"plan,2,form\n",
    },
    PlanCase {
        plan: b"start,2021\nitem,FO\0OD,\n",
        report: b"plan,2,form\n",
    },
    PlanCase {
        plan: b"start,2021\nitem,\xFF,\n",
        report: b"plan,2,form\n",
    },
    PlanCase {
        plan: b"start,2021\nitem,A,\xFF\n",
        report: b"plan,2,noparent\n",
    },
    PlanCase {
        plan: b"start,2021\nitem,\"A,\n",
        report: b"plan,2,form\n",
    },
    PlanCase {
        plan: b"start,2021\nitem,\"A\"\"B\",\n",
        report: b"plan,2,form\n",
    },
    PlanCase {
        plan: b"start,65536\n",
        report: b"plan,1,form\n",
    },
    PlanCase {
        plan: b"start,\xD9\xA2021\n",
        report: b"plan,1,form\n",
    },
    PlanCase {
        plan: b"start,-021\n",
        report: b"plan,1,form\n",
    },
    PlanCase {
        plan: b"start,2021\ritem,A,\r",
        report: b"plan,1,form\n",
    },
    PlanCase {
        plan: b"start,2021\n################################################################################################################################################################################################################################################################\n#################################################################################################################################################################################################################################################################\n",
        report: b"plan,3,form\n",
    },
    PlanCase {
        plan: b"start,2021\nitem,NNNNNNNNNNNNNNNNNNNNNNNNNNNNNNNN,\nitem,NNNNNNNNNNNNNNNNNNNNNNNNNNNNNNNNN,\n",
        report: b"plan,3,form\n",
    },
    PlanCase {
        plan: b"start,2021\nitem,FOOD,\nitem,SER",
        report: b"plan,3,form\n",
    },
    PlanCase {
        plan: b"start,2021\nitem,FOOD",
        report: b"plan,2,form\n",
    },
];
