//! Rows of the command `batch`.

/// A plan and an input, and what `batch` leaves of them with ample memory and devices that work.
pub struct BatchCase {
    /// What the row shows.
    pub name: &'static str,
    /// The bytes of the plan.
    pub plan: &'static [u8],
    /// The bytes of the input.
    pub input: &'static [u8],
    /// What stands in the output afterwards, or none where no output is created.
    pub release: Option<&'static [u8]>,
    /// All that is reported.
    pub report: &'static [u8],
    /// The number of the exit status.
    pub status: u8,
}

/// The plan of most rows: one item, from 2021 on.
pub const FOOD_PLAN: &[u8] = b"start,2021\nitem,FOOD,\n";

/// Three years of food and of services, with benchmarks that are the sums of the indicators, and prices.
const FOOD_AND_SERVICES: &[u8] =
    b"ind,FOOD,2021Q1,100\nind,FOOD,2021Q2,100\nind,FOOD,2021Q3,100\nind,FOOD,2021Q4,100\nind,FOOD,2022Q1,110\nind,FOOD,2022Q2,110\nind,FOOD,2022Q3,110\nind,FOOD,2022Q4,110\nind,FOOD,2023Q1,120\nind,FOOD,2023Q2,120\nind,FOOD,2023Q3,130\nind,FOOD,2023Q4,130\nbench,FOOD,2021,400\nbench,FOOD,2022,440\nbench,FOOD,2023,500\nprice,FOOD,2021Q1,1000000\nprice,FOOD,2021Q2,1000000\nprice,FOOD,2021Q3,1000000\nprice,FOOD,2021Q4,1000000\nprice,FOOD,2022Q1,1375000\nprice,FOOD,2022Q2,1375000\nprice,FOOD,2022Q3,1375000\nprice,FOOD,2022Q4,1375000\nprice,FOOD,2023Q1,1000000\nprice,FOOD,2023Q2,1000000\nprice,FOOD,2023Q3,1000000\nprice,FOOD,2023Q4,1000000\nind,SERV,2021Q1,200\nind,SERV,2021Q2,200\nind,SERV,2021Q3,200\nind,SERV,2021Q4,200\nind,SERV,2022Q1,210\nind,SERV,2022Q2,210\nind,SERV,2022Q3,210\nind,SERV,2022Q4,210\nind,SERV,2023Q1,250\nind,SERV,2023Q2,250\nind,SERV,2023Q3,250\nind,SERV,2023Q4,250\nbench,SERV,2021,800\nbench,SERV,2022,840\nbench,SERV,2023,1000\nprice,SERV,2021Q1,1000000\nprice,SERV,2021Q2,1000000\nprice,SERV,2021Q3,1000000\nprice,SERV,2021Q4,1000000\nprice,SERV,2022Q1,700000\nprice,SERV,2022Q2,700000\nprice,SERV,2022Q3,700000\nprice,SERV,2022Q4,700000\nprice,SERV,2023Q1,1000000\nprice,SERV,2023Q2,1000000\nprice,SERV,2023Q3,1000000\nprice,SERV,2023Q4,1000000\n";

/// The rows of `batch`: benchmarked years, quarters after them, prices and chains, trees, last values, the spellings of
/// lines, and refused lines.
pub fn batches() -> &'static [BatchCase] {
    &BATCHES
}

static BATCHES: [BatchCase; 35] = [
    BatchCase {
        name: "a benchmark that divides evenly",
        plan: FOOD_PLAN,
        input: b"ind,FOOD,2021Q1,100\nind,FOOD,2021Q2,100\nind,FOOD,2021Q3,100\nind,FOOD,2021Q4,100\nbench,FOOD,2021,1000\n",
        release: Some(
            b"release,5\nv,FOOD,2021Q1,250\nv,FOOD,2021Q2,250\nv,FOOD,2021Q3,250\nv,FOOD,2021Q4,250\nk,FOOD,2021Q1,missing\nk,FOOD,2021Q2,missing\nk,FOOD,2021Q3,missing\nk,FOOD,2021Q4,missing\nc,FOOD,2021Q1,missing\nc,FOOD,2021Q2,missing\nc,FOOD,2021Q3,missing\nc,FOOD,2021Q4,missing\na,FOOD,2021,1000,missing,10000000,0\ng,FOOD,1,12,0\nend,5\n",
        ),
        report: b"",
        status: 0,
    },
    BatchCase {
        name: "units left over go to the earlier quarters",
        plan: FOOD_PLAN,
        input: b"ind,FOOD,2021Q1,1\nind,FOOD,2021Q2,1\nind,FOOD,2021Q3,1\nind,FOOD,2021Q4,1\nbench,FOOD,2021,10\n",
        release: Some(
            b"release,5\nv,FOOD,2021Q1,3\nv,FOOD,2021Q2,3\nv,FOOD,2021Q3,2\nv,FOOD,2021Q4,2\nk,FOOD,2021Q1,missing\nk,FOOD,2021Q2,missing\nk,FOOD,2021Q3,missing\nk,FOOD,2021Q4,missing\nc,FOOD,2021Q1,missing\nc,FOOD,2021Q2,missing\nc,FOOD,2021Q3,missing\nc,FOOD,2021Q4,missing\na,FOOD,2021,10,missing,100000,0\ng,FOOD,1,12,1000000000000000000000000\nend,5\n",
        ),
        report: b"",
        status: 0,
    },
    BatchCase {
        name: "a benchmark below 0",
        plan: FOOD_PLAN,
        input: b"ind,FOOD,2021Q1,1\nind,FOOD,2021Q2,1\nind,FOOD,2021Q3,1\nind,FOOD,2021Q4,1\nbench,FOOD,2021,-10\n",
        release: Some(
            b"release,5\nv,FOOD,2021Q1,-2\nv,FOOD,2021Q2,-2\nv,FOOD,2021Q3,-3\nv,FOOD,2021Q4,-3\nk,FOOD,2021Q1,missing\nk,FOOD,2021Q2,missing\nk,FOOD,2021Q3,missing\nk,FOOD,2021Q4,missing\nc,FOOD,2021Q1,missing\nc,FOOD,2021Q2,missing\nc,FOOD,2021Q3,missing\nc,FOOD,2021Q4,missing\na,FOOD,2021,-10,missing,nolink,nolink\ng,FOOD,1,12,1000000000000000000000000\nend,5\n",
        ),
        report: b"",
        status: 0,
    },
    BatchCase {
        name: "the largest remainder gets the unit left over",
        plan: FOOD_PLAN,
        input: b"ind,FOOD,2021Q1,5\nind,FOOD,2021Q2,1\nind,FOOD,2021Q3,1\nind,FOOD,2021Q4,1\nbench,FOOD,2021,99\n",
        release: Some(
            b"release,5\nv,FOOD,2021Q1,62\nv,FOOD,2021Q2,13\nv,FOOD,2021Q3,12\nv,FOOD,2021Q4,12\nk,FOOD,2021Q1,missing\nk,FOOD,2021Q2,missing\nk,FOOD,2021Q3,missing\nk,FOOD,2021Q4,missing\nc,FOOD,2021Q1,missing\nc,FOOD,2021Q2,missing\nc,FOOD,2021Q3,missing\nc,FOOD,2021Q4,missing\na,FOOD,2021,99,missing,990000,0\ng,FOOD,1,11,13600000000000000000000\nend,5\n",
        ),
        report: b"",
        status: 0,
    },
    BatchCase {
        name: "a benchmark of a year without its quarters waits",
        plan: FOOD_PLAN,
        input: b"ind,FOOD,2021Q1,100\nind,FOOD,2021Q2,100\nind,FOOD,2021Q3,100\nind,FOOD,2021Q4,100\nbench,FOOD,2021,1000\nbench,FOOD,2022,1400\n",
        release: Some(
            b"release,6\nv,FOOD,2021Q1,250\nv,FOOD,2021Q2,250\nv,FOOD,2021Q3,250\nv,FOOD,2021Q4,250\nk,FOOD,2021Q1,missing\nk,FOOD,2021Q2,missing\nk,FOOD,2021Q3,missing\nk,FOOD,2021Q4,missing\nc,FOOD,2021Q1,missing\nc,FOOD,2021Q2,missing\nc,FOOD,2021Q3,missing\nc,FOOD,2021Q4,missing\na,FOOD,2021,1000,missing,10000000,0\ng,FOOD,1,12,0\nend,6\n",
        ),
        report: b"",
        status: 0,
    },
    BatchCase {
        name: "a quarter after the benchmarked year carries its ratio forward",
        plan: FOOD_PLAN,
        input: b"ind,FOOD,2021Q1,100\nind,FOOD,2021Q2,100\nind,FOOD,2021Q3,100\nind,FOOD,2021Q4,100\nbench,FOOD,2021,1000\nind,FOOD,2022Q1,110\n",
        release: Some(
            b"release,6\nv,FOOD,2021Q1,250\nv,FOOD,2021Q2,250\nv,FOOD,2021Q3,250\nv,FOOD,2021Q4,250\nv,FOOD,2022Q1,275\nk,FOOD,2021Q1,missing\nk,FOOD,2021Q2,missing\nk,FOOD,2021Q3,missing\nk,FOOD,2021Q4,missing\nk,FOOD,2022Q1,missing\nc,FOOD,2021Q1,missing\nc,FOOD,2021Q2,missing\nc,FOOD,2021Q3,missing\nc,FOOD,2021Q4,missing\nc,FOOD,2022Q1,missing\na,FOOD,2021,1000,missing,10000000,0\na,FOOD,2022,missing,missing,missing,missing\ng,FOOD,1,12,0\nend,6\n",
        ),
        report: b"",
        status: 0,
    },
    BatchCase {
        name: "two benchmarked years",
        plan: FOOD_PLAN,
        input: b"ind,FOOD,2021Q1,100\nind,FOOD,2021Q2,100\nind,FOOD,2021Q3,100\nind,FOOD,2021Q4,100\nind,FOOD,2022Q1,100\nind,FOOD,2022Q2,100\nind,FOOD,2022Q3,100\nind,FOOD,2022Q4,100\nbench,FOOD,2021,1000\nbench,FOOD,2022,1400\n",
        release: Some(
            b"release,10\nv,FOOD,2021Q1,227\nv,FOOD,2021Q2,236\nv,FOOD,2021Q3,255\nv,FOOD,2021Q4,282\nv,FOOD,2022Q1,318\nv,FOOD,2022Q2,345\nv,FOOD,2022Q3,364\nv,FOOD,2022Q4,373\nk,FOOD,2021Q1,missing\nk,FOOD,2021Q2,missing\nk,FOOD,2021Q3,missing\nk,FOOD,2021Q4,missing\nk,FOOD,2022Q1,missing\nk,FOOD,2022Q2,missing\nk,FOOD,2022Q3,missing\nk,FOOD,2022Q4,missing\nc,FOOD,2021Q1,missing\nc,FOOD,2021Q2,missing\nc,FOOD,2021Q3,missing\nc,FOOD,2021Q4,missing\nc,FOOD,2022Q1,missing\nc,FOOD,2022Q2,missing\nc,FOOD,2022Q3,missing\nc,FOOD,2022Q4,missing\na,FOOD,2021,1000,missing,10000000,0\na,FOOD,2022,1400,missing,missing,missing\ng,FOOD,2,12,163636363636363636364\nend,10\n",
        ),
        report: b"",
        status: 0,
    },
    BatchCase {
        name: "two benchmarked years, and a quarter after them",
        plan: FOOD_PLAN,
        input: b"ind,FOOD,2021Q1,100\nind,FOOD,2021Q2,100\nind,FOOD,2021Q3,100\nind,FOOD,2021Q4,100\nind,FOOD,2022Q1,100\nind,FOOD,2022Q2,100\nind,FOOD,2022Q3,100\nind,FOOD,2022Q4,100\nbench,FOOD,2021,1000\nbench,FOOD,2022,1400\nind,FOOD,2023Q1,110\n",
        release: Some(
            b"release,11\nv,FOOD,2021Q1,227\nv,FOOD,2021Q2,236\nv,FOOD,2021Q3,255\nv,FOOD,2021Q4,282\nv,FOOD,2022Q1,318\nv,FOOD,2022Q2,345\nv,FOOD,2022Q3,364\nv,FOOD,2022Q4,373\nv,FOOD,2023Q1,410\nk,FOOD,2021Q1,missing\nk,FOOD,2021Q2,missing\nk,FOOD,2021Q3,missing\nk,FOOD,2021Q4,missing\nk,FOOD,2022Q1,missing\nk,FOOD,2022Q2,missing\nk,FOOD,2022Q3,missing\nk,FOOD,2022Q4,missing\nk,FOOD,2023Q1,missing\nc,FOOD,2021Q1,missing\nc,FOOD,2021Q2,missing\nc,FOOD,2021Q3,missing\nc,FOOD,2021Q4,missing\nc,FOOD,2022Q1,missing\nc,FOOD,2022Q2,missing\nc,FOOD,2022Q3,missing\nc,FOOD,2022Q4,missing\nc,FOOD,2023Q1,missing\na,FOOD,2021,1000,missing,10000000,0\na,FOOD,2022,1400,missing,missing,missing\na,FOOD,2023,missing,missing,missing,missing\ng,FOOD,2,12,171074380169256198348\nend,11\n",
        ),
        report: b"",
        status: 0,
    },
    BatchCase {
        name: "benchmarks of 0",
        plan: FOOD_PLAN,
        input: b"ind,FOOD,2021Q1,100\nind,FOOD,2021Q2,100\nind,FOOD,2021Q3,100\nind,FOOD,2021Q4,100\nind,FOOD,2022Q1,100\nind,FOOD,2022Q2,100\nind,FOOD,2022Q3,100\nind,FOOD,2022Q4,100\nbench,FOOD,2021,0\nbench,FOOD,2022,0\n",
        release: Some(
            b"release,10\nv,FOOD,2021Q1,0\nv,FOOD,2021Q2,0\nv,FOOD,2021Q3,0\nv,FOOD,2021Q4,0\nv,FOOD,2022Q1,0\nv,FOOD,2022Q2,0\nv,FOOD,2022Q3,0\nv,FOOD,2022Q4,0\nk,FOOD,2021Q1,missing\nk,FOOD,2021Q2,missing\nk,FOOD,2021Q3,missing\nk,FOOD,2021Q4,missing\nk,FOOD,2022Q1,missing\nk,FOOD,2022Q2,missing\nk,FOOD,2022Q3,missing\nk,FOOD,2022Q4,missing\nc,FOOD,2021Q1,missing\nc,FOOD,2021Q2,missing\nc,FOOD,2021Q3,missing\nc,FOOD,2021Q4,missing\nc,FOOD,2022Q1,missing\nc,FOOD,2022Q2,missing\nc,FOOD,2022Q3,missing\nc,FOOD,2022Q4,missing\na,FOOD,2021,0,missing,nolink,nolink\na,FOOD,2022,0,missing,nolink,nolink\ng,FOOD,2,15,0\nend,10\n",
        ),
        report: b"",
        status: 0,
    },
    BatchCase {
        name: "indicators that jump from the least to the greatest",
        plan: FOOD_PLAN,
        input: b"ind,FOOD,2021Q1,1\nind,FOOD,2021Q2,1\nind,FOOD,2021Q3,1\nind,FOOD,2021Q4,1\nind,FOOD,2022Q1,1000000000\nind,FOOD,2022Q2,1000000000\nind,FOOD,2022Q3,1000000000\nind,FOOD,2022Q4,1000000000\nbench,FOOD,2021,1000000000000\nbench,FOOD,2022,1000000000000\n",
        release: Some(
            b"release,10\nv,FOOD,2021Q1,306818181761\nv,FOOD,2021Q2,284090909057\nv,FOOD,2021Q3,238636363648\nv,FOOD,2021Q4,170454545534\nv,FOOD,2022Q1,79545454715975000000\nv,FOOD,2022Q2,11363636602275000000\nv,FOOD,2022Q3,-34090908806825000000\nv,FOOD,2022Q4,-56818181511425000000\nk,FOOD,2021Q1,missing\nk,FOOD,2021Q2,missing\nk,FOOD,2021Q3,missing\nk,FOOD,2021Q4,missing\nk,FOOD,2022Q1,missing\nk,FOOD,2022Q2,missing\nk,FOOD,2022Q3,missing\nk,FOOD,2022Q4,missing\nc,FOOD,2021Q1,missing\nc,FOOD,2021Q2,missing\nc,FOOD,2021Q3,missing\nc,FOOD,2021Q4,missing\nc,FOOD,2022Q1,missing\nc,FOOD,2022Q2,missing\nc,FOOD,2022Q3,missing\nc,FOOD,2022Q4,missing\na,FOOD,2021,1000000000000,missing,10000000000000000,0\na,FOOD,2022,1000000000000,missing,missing,missing\ng,FOOD,2,1,66\nend,10\n",
        ),
        report: b"",
        status: 0,
    },
    BatchCase {
        name: "a year without a benchmark between two with one",
        plan: FOOD_PLAN,
        input: b"ind,FOOD,2021Q1,100\nind,FOOD,2021Q2,100\nind,FOOD,2021Q3,100\nind,FOOD,2021Q4,100\nind,FOOD,2022Q1,100\nind,FOOD,2022Q2,100\nind,FOOD,2022Q3,100\nind,FOOD,2022Q4,100\nind,FOOD,2023Q1,100\nind,FOOD,2023Q2,100\nind,FOOD,2023Q3,100\nind,FOOD,2023Q4,100\nbench,FOOD,2021,1000\nbench,FOOD,2023,1400\n",
        release: Some(
            b"release,14\nv,FOOD,2021Q1,241\nv,FOOD,2021Q2,244\nv,FOOD,2021Q3,252\nv,FOOD,2021Q4,263\nv,FOOD,2022Q1,278\nv,FOOD,2022Q2,293\nv,FOOD,2022Q3,307\nv,FOOD,2022Q4,322\nv,FOOD,2023Q1,337\nv,FOOD,2023Q2,348\nv,FOOD,2023Q3,356\nv,FOOD,2023Q4,359\nk,FOOD,2021Q1,missing\nk,FOOD,2021Q2,missing\nk,FOOD,2021Q3,missing\nk,FOOD,2021Q4,missing\nk,FOOD,2022Q1,missing\nk,FOOD,2022Q2,missing\nk,FOOD,2022Q3,missing\nk,FOOD,2022Q4,missing\nk,FOOD,2023Q1,missing\nk,FOOD,2023Q2,missing\nk,FOOD,2023Q3,missing\nk,FOOD,2023Q4,missing\nc,FOOD,2021Q1,missing\nc,FOOD,2021Q2,missing\nc,FOOD,2021Q3,missing\nc,FOOD,2021Q4,missing\nc,FOOD,2022Q1,missing\nc,FOOD,2022Q2,missing\nc,FOOD,2022Q3,missing\nc,FOOD,2022Q4,missing\nc,FOOD,2023Q1,missing\nc,FOOD,2023Q2,missing\nc,FOOD,2023Q3,missing\nc,FOOD,2023Q4,missing\na,FOOD,2021,1000,missing,10000000,0\na,FOOD,2022,1200,missing,missing,missing\na,FOOD,2023,1400,missing,missing,missing\ng,FOOD,2,12,251851851851851851852\nend,14\n",
        ),
        report: b"",
        status: 0,
    },
    BatchCase {
        name: "the year between gets its benchmark, and three years are benchmarked",
        plan: FOOD_PLAN,
        input: b"ind,FOOD,2021Q1,100\nind,FOOD,2021Q2,100\nind,FOOD,2021Q3,100\nind,FOOD,2021Q4,100\nind,FOOD,2022Q1,100\nind,FOOD,2022Q2,100\nind,FOOD,2022Q3,100\nind,FOOD,2022Q4,100\nind,FOOD,2023Q1,100\nind,FOOD,2023Q2,100\nind,FOOD,2023Q3,100\nind,FOOD,2023Q4,100\nbench,FOOD,2021,1000\nbench,FOOD,2023,1400\nbench,FOOD,2022,1200\n",
        release: Some(
            b"release,15\nv,FOOD,2021Q1,241\nv,FOOD,2021Q2,244\nv,FOOD,2021Q3,252\nv,FOOD,2021Q4,263\nv,FOOD,2022Q1,278\nv,FOOD,2022Q2,293\nv,FOOD,2022Q3,307\nv,FOOD,2022Q4,322\nv,FOOD,2023Q1,337\nv,FOOD,2023Q2,348\nv,FOOD,2023Q3,356\nv,FOOD,2023Q4,359\nk,FOOD,2021Q1,missing\nk,FOOD,2021Q2,missing\nk,FOOD,2021Q3,missing\nk,FOOD,2021Q4,missing\nk,FOOD,2022Q1,missing\nk,FOOD,2022Q2,missing\nk,FOOD,2022Q3,missing\nk,FOOD,2022Q4,missing\nk,FOOD,2023Q1,missing\nk,FOOD,2023Q2,missing\nk,FOOD,2023Q3,missing\nk,FOOD,2023Q4,missing\nc,FOOD,2021Q1,missing\nc,FOOD,2021Q2,missing\nc,FOOD,2021Q3,missing\nc,FOOD,2021Q4,missing\nc,FOOD,2022Q1,missing\nc,FOOD,2022Q2,missing\nc,FOOD,2022Q3,missing\nc,FOOD,2022Q4,missing\nc,FOOD,2023Q1,missing\nc,FOOD,2023Q2,missing\nc,FOOD,2023Q3,missing\nc,FOOD,2023Q4,missing\na,FOOD,2021,1000,missing,10000000,0\na,FOOD,2022,1200,missing,missing,missing\na,FOOD,2023,1400,missing,missing,missing\ng,FOOD,3,12,251851851851851851852\nend,15\n",
        ),
        report: b"",
        status: 0,
    },
    BatchCase {
        name: "a first year without a benchmark",
        plan: FOOD_PLAN,
        input: b"ind,FOOD,2021Q1,100\nind,FOOD,2021Q2,100\nind,FOOD,2021Q3,100\nind,FOOD,2021Q4,100\nind,FOOD,2022Q1,100\nind,FOOD,2022Q2,100\nind,FOOD,2022Q3,100\nind,FOOD,2022Q4,100\nbench,FOOD,2022,1400\n",
        release: Some(
            b"release,9\nv,FOOD,2021Q1,350\nv,FOOD,2021Q2,350\nv,FOOD,2021Q3,350\nv,FOOD,2021Q4,350\nv,FOOD,2022Q1,350\nv,FOOD,2022Q2,350\nv,FOOD,2022Q3,350\nv,FOOD,2022Q4,350\nk,FOOD,2021Q1,missing\nk,FOOD,2021Q2,missing\nk,FOOD,2021Q3,missing\nk,FOOD,2021Q4,missing\nk,FOOD,2022Q1,missing\nk,FOOD,2022Q2,missing\nk,FOOD,2022Q3,missing\nk,FOOD,2022Q4,missing\nc,FOOD,2021Q1,missing\nc,FOOD,2021Q2,missing\nc,FOOD,2021Q3,missing\nc,FOOD,2021Q4,missing\nc,FOOD,2022Q1,missing\nc,FOOD,2022Q2,missing\nc,FOOD,2022Q3,missing\nc,FOOD,2022Q4,missing\na,FOOD,2021,1400,missing,14000000,0\na,FOOD,2022,1400,missing,missing,missing\ng,FOOD,1,12,0\nend,9\n",
        ),
        report: b"",
        status: 0,
    },
    BatchCase {
        name: "benchmarks that start late, have a hole and stop early",
        plan: FOOD_PLAN,
        input: b"ind,FOOD,2021Q1,104\nind,FOOD,2021Q2,97\nind,FOOD,2021Q3,110\nind,FOOD,2021Q4,120\nind,FOOD,2022Q1,103\nind,FOOD,2022Q2,99\nind,FOOD,2022Q3,112\nind,FOOD,2022Q4,125\nind,FOOD,2023Q1,108\nind,FOOD,2023Q2,101\nind,FOOD,2023Q3,118\nind,FOOD,2023Q4,131\nind,FOOD,2024Q1,112\nind,FOOD,2024Q2,107\nind,FOOD,2024Q3,121\nind,FOOD,2024Q4,138\nind,FOOD,2025Q1,120\nind,FOOD,2025Q2,113\nind,FOOD,2025Q3,129\nind,FOOD,2025Q4,149\nind,FOOD,2026Q1,131\nind,FOOD,2026Q2,125\nbench,FOOD,2022,1050\nbench,FOOD,2024,1236\nbench,FOOD,2026,9999\n",
        release: Some(
            b"release,25\nv,FOOD,2021Q1,247\nv,FOOD,2021Q2,230\nv,FOOD,2021Q3,261\nv,FOOD,2021Q4,285\nv,FOOD,2022Q1,244\nv,FOOD,2022Q2,236\nv,FOOD,2022Q3,268\nv,FOOD,2022Q4,302\nv,FOOD,2023Q1,264\nv,FOOD,2023Q2,250\nv,FOOD,2023Q3,295\nv,FOOD,2023Q4,331\nv,FOOD,2024Q1,287\nv,FOOD,2024Q2,276\nv,FOOD,2024Q3,314\nv,FOOD,2024Q4,359\nv,FOOD,2025Q1,312\nv,FOOD,2025Q2,294\nv,FOOD,2025Q3,336\nv,FOOD,2025Q4,388\nv,FOOD,2026Q1,341\nv,FOOD,2026Q2,325\nk,FOOD,2021Q1,missing\nk,FOOD,2021Q2,missing\nk,FOOD,2021Q3,missing\nk,FOOD,2021Q4,missing\nk,FOOD,2022Q1,missing\nk,FOOD,2022Q2,missing\nk,FOOD,2022Q3,missing\nk,FOOD,2022Q4,missing\nk,FOOD,2023Q1,missing\nk,FOOD,2023Q2,missing\nk,FOOD,2023Q3,missing\nk,FOOD,2023Q4,missing\nk,FOOD,2024Q1,missing\nk,FOOD,2024Q2,missing\nk,FOOD,2024Q3,missing\nk,FOOD,2024Q4,missing\nk,FOOD,2025Q1,missing\nk,FOOD,2025Q2,missing\nk,FOOD,2025Q3,missing\nk,FOOD,2025Q4,missing\nk,FOOD,2026Q1,missing\nk,FOOD,2026Q2,missing\nc,FOOD,2021Q1,missing\nc,FOOD,2021Q2,missing\nc,FOOD,2021Q3,missing\nc,FOOD,2021Q4,missing\nc,FOOD,2022Q1,missing\nc,FOOD,2022Q2,missing\nc,FOOD,2022Q3,missing\nc,FOOD,2022Q4,missing\nc,FOOD,2023Q1,missing\nc,FOOD,2023Q2,missing\nc,FOOD,2023Q3,missing\nc,FOOD,2023Q4,missing\nc,FOOD,2024Q1,missing\nc,FOOD,2024Q2,missing\nc,FOOD,2024Q3,missing\nc,FOOD,2024Q4,missing\nc,FOOD,2025Q1,missing\nc,FOOD,2025Q2,missing\nc,FOOD,2025Q3,missing\nc,FOOD,2025Q4,missing\nc,FOOD,2026Q1,missing\nc,FOOD,2026Q2,missing\na,FOOD,2021,1023,missing,10230000,0\na,FOOD,2022,1050,missing,missing,missing\na,FOOD,2023,1140,missing,missing,missing\na,FOOD,2024,1236,missing,missing,missing\na,FOOD,2025,1330,missing,missing,missing\na,FOOD,2026,missing,missing,missing,missing\ng,FOOD,2,12,277844005374205572767\nend,25\n",
        ),
        report: b"",
        status: 0,
    },
    BatchCase {
        name: "two holes, between benchmarks above and below 0",
        plan: FOOD_PLAN,
        input: b"ind,FOOD,2021Q1,3\nind,FOOD,2021Q2,1\nind,FOOD,2021Q3,4\nind,FOOD,2021Q4,1\nind,FOOD,2022Q1,5\nind,FOOD,2022Q2,9\nind,FOOD,2022Q3,2\nind,FOOD,2022Q4,6\nind,FOOD,2023Q1,5\nind,FOOD,2023Q2,3\nind,FOOD,2023Q3,5\nind,FOOD,2023Q4,8\nind,FOOD,2024Q1,9\nind,FOOD,2024Q2,7\nind,FOOD,2024Q3,9\nind,FOOD,2024Q4,3\nind,FOOD,2025Q1,2\nind,FOOD,2025Q2,3\nind,FOOD,2025Q3,8\nind,FOOD,2025Q4,4\nind,FOOD,2026Q1,6\nind,FOOD,2026Q2,2\nind,FOOD,2026Q3,6\nind,FOOD,2026Q4,4\nbench,FOOD,2021,-50\nbench,FOOD,2024,70\nbench,FOOD,2026,-12\n",
        release: Some(
            b"release,27\nv,FOOD,2021Q1,-18\nv,FOOD,2021Q2,-6\nv,FOOD,2021Q3,-21\nv,FOOD,2021Q4,-5\nv,FOOD,2022Q1,-20\nv,FOOD,2022Q2,-28\nv,FOOD,2022Q3,-5\nv,FOOD,2022Q4,-10\nv,FOOD,2023Q1,-4\nv,FOOD,2023Q2,0\nv,FOOD,2023Q3,4\nv,FOOD,2023Q4,12\nv,FOOD,2024Q1,21\nv,FOOD,2024Q2,18\nv,FOOD,2024Q3,24\nv,FOOD,2024Q4,7\nv,FOOD,2025Q1,4\nv,FOOD,2025Q2,4\nv,FOOD,2025Q3,6\nv,FOOD,2025Q4,1\nv,FOOD,2026Q1,-2\nv,FOOD,2026Q2,-1\nv,FOOD,2026Q3,-5\nv,FOOD,2026Q4,-4\nk,FOOD,2021Q1,missing\nk,FOOD,2021Q2,missing\nk,FOOD,2021Q3,missing\nk,FOOD,2021Q4,missing\nk,FOOD,2022Q1,missing\nk,FOOD,2022Q2,missing\nk,FOOD,2022Q3,missing\nk,FOOD,2022Q4,missing\nk,FOOD,2023Q1,missing\nk,FOOD,2023Q2,missing\nk,FOOD,2023Q3,missing\nk,FOOD,2023Q4,missing\nk,FOOD,2024Q1,missing\nk,FOOD,2024Q2,missing\nk,FOOD,2024Q3,missing\nk,FOOD,2024Q4,missing\nk,FOOD,2025Q1,missing\nk,FOOD,2025Q2,missing\nk,FOOD,2025Q3,missing\nk,FOOD,2025Q4,missing\nk,FOOD,2026Q1,missing\nk,FOOD,2026Q2,missing\nk,FOOD,2026Q3,missing\nk,FOOD,2026Q4,missing\nc,FOOD,2021Q1,missing\nc,FOOD,2021Q2,missing\nc,FOOD,2021Q3,missing\nc,FOOD,2021Q4,missing\nc,FOOD,2022Q1,missing\nc,FOOD,2022Q2,missing\nc,FOOD,2022Q3,missing\nc,FOOD,2022Q4,missing\nc,FOOD,2023Q1,missing\nc,FOOD,2023Q2,missing\nc,FOOD,2023Q3,missing\nc,FOOD,2023Q4,missing\nc,FOOD,2024Q1,missing\nc,FOOD,2024Q2,missing\nc,FOOD,2024Q3,missing\nc,FOOD,2024Q4,missing\nc,FOOD,2025Q1,missing\nc,FOOD,2025Q2,missing\nc,FOOD,2025Q3,missing\nc,FOOD,2025Q4,missing\nc,FOOD,2026Q1,missing\nc,FOOD,2026Q2,missing\nc,FOOD,2026Q3,missing\nc,FOOD,2026Q4,missing\na,FOOD,2021,-50,missing,nolink,nolink\na,FOOD,2022,-63,missing,nolink,nolink\na,FOOD,2023,12,missing,nolink,nolink\na,FOOD,2024,70,missing,nolink,nolink\na,FOOD,2025,15,missing,nolink,nolink\na,FOOD,2026,-12,missing,nolink,nolink\ng,FOOD,3,12,658175069533235223254245\nend,27\n",
        ),
        report: b"",
        status: 0,
    },
    BatchCase {
        name: "halves of carried quarters go up",
        plan: b"start,2021\nitem,UP,\nitem,DOWN,\n",
        input: b"ind,UP,2021Q1,1\nind,UP,2021Q2,1\nind,UP,2021Q3,1\nind,UP,2021Q4,1\nind,UP,2022Q1,3\nbench,UP,2021,10\nind,DOWN,2021Q1,1\nind,DOWN,2021Q2,1\nind,DOWN,2021Q3,1\nind,DOWN,2021Q4,1\nind,DOWN,2022Q1,3\nbench,DOWN,2021,-10\n",
        release: Some(
            b"release,12\nv,UP,2021Q1,3\nv,UP,2021Q2,3\nv,UP,2021Q3,2\nv,UP,2021Q4,2\nv,UP,2022Q1,8\nk,UP,2021Q1,missing\nk,UP,2021Q2,missing\nk,UP,2021Q3,missing\nk,UP,2021Q4,missing\nk,UP,2022Q1,missing\nc,UP,2021Q1,missing\nc,UP,2021Q2,missing\nc,UP,2021Q3,missing\nc,UP,2021Q4,missing\nc,UP,2022Q1,missing\na,UP,2021,10,missing,100000,0\na,UP,2022,missing,missing,missing,missing\ng,UP,1,12,1444444444444888888888889\nv,DOWN,2021Q1,-2\nv,DOWN,2021Q2,-2\nv,DOWN,2021Q3,-3\nv,DOWN,2021Q4,-3\nv,DOWN,2022Q1,-7\nk,DOWN,2021Q1,missing\nk,DOWN,2021Q2,missing\nk,DOWN,2021Q3,missing\nk,DOWN,2021Q4,missing\nk,DOWN,2022Q1,missing\nc,DOWN,2021Q1,missing\nc,DOWN,2021Q2,missing\nc,DOWN,2021Q3,missing\nc,DOWN,2021Q4,missing\nc,DOWN,2022Q1,missing\na,DOWN,2021,-10,missing,nolink,nolink\na,DOWN,2022,missing,missing,nolink,nolink\ng,DOWN,1,12,1444444444444888888888889\nend,12\n",
        ),
        report: b"",
        status: 0,
    },
    BatchCase {
        name: "the greatest numbers",
        plan: FOOD_PLAN,
        input: b"ind,FOOD,2021Q1,1000000000\nind,FOOD,2021Q2,1\nind,FOOD,2021Q3,1\nind,FOOD,2021Q4,1\nbench,FOOD,2021,1000000000000\nind,FOOD,2022Q1,1000000000\n",
        release: Some(
            b"release,6\nv,FOOD,2021Q1,999999997000\nv,FOOD,2021Q2,1000\nv,FOOD,2021Q3,1000\nv,FOOD,2021Q4,1000\nv,FOOD,2022Q1,999999997000\nk,FOOD,2021Q1,missing\nk,FOOD,2021Q2,missing\nk,FOOD,2021Q3,missing\nk,FOOD,2021Q4,missing\nk,FOOD,2022Q1,missing\nc,FOOD,2021Q1,missing\nc,FOOD,2021Q2,missing\nc,FOOD,2021Q3,missing\nc,FOOD,2021Q4,missing\nc,FOOD,2022Q1,missing\na,FOOD,2021,1000000000000,missing,10000000000000000,0\na,FOOD,2022,missing,missing,missing,missing\ng,FOOD,1,10,1800000000\nend,6\n",
        ),
        report: b"",
        status: 0,
    },
    BatchCase {
        name: "a tree of two leaves, chained both ways from a reference year between",
        plan: b"start,2021\nreference,2022\nitem,TOTAL,\nitem,FOOD,TOTAL\nitem,SERV,TOTAL\n",
        input: FOOD_AND_SERVICES,
        release: Some(
            b"release,54\nv,TOTAL,2021Q1,300\nv,TOTAL,2021Q2,300\nv,TOTAL,2021Q3,300\nv,TOTAL,2021Q4,300\nv,TOTAL,2022Q1,320\nv,TOTAL,2022Q2,320\nv,TOTAL,2022Q3,320\nv,TOTAL,2022Q4,320\nv,TOTAL,2023Q1,370\nv,TOTAL,2023Q2,370\nv,TOTAL,2023Q3,380\nv,TOTAL,2023Q4,380\nk,TOTAL,2021Q1,300\nk,TOTAL,2021Q2,300\nk,TOTAL,2021Q3,300\nk,TOTAL,2021Q4,300\nk,TOTAL,2022Q1,380\nk,TOTAL,2022Q2,380\nk,TOTAL,2022Q3,380\nk,TOTAL,2022Q4,380\nk,TOTAL,2023Q1,340\nk,TOTAL,2023Q2,340\nk,TOTAL,2023Q3,354\nk,TOTAL,2023Q4,354\nc,TOTAL,2021Q1,2526316\nc,TOTAL,2021Q2,2526316\nc,TOTAL,2021Q3,2526316\nc,TOTAL,2021Q4,2526315\nc,TOTAL,2022Q1,3200000\nc,TOTAL,2022Q2,3200000\nc,TOTAL,2022Q3,3200000\nc,TOTAL,2022Q4,3200000\nc,TOTAL,2023Q1,3400000\nc,TOTAL,2023Q2,3400000\nc,TOTAL,2023Q3,3540000\nc,TOTAL,2023Q4,3540000\na,TOTAL,2021,1200,1200,10105263,1\na,TOTAL,2022,1280,1520,12800000,0\na,TOTAL,2023,1500,1388,13880000,1\nv,FOOD,2021Q1,100\nv,FOOD,2021Q2,100\nv,FOOD,2021Q3,100\nv,FOOD,2021Q4,100\nv,FOOD,2022Q1,110\nv,FOOD,2022Q2,110\nv,FOOD,2022Q3,110\nv,FOOD,2022Q4,110\nv,FOOD,2023Q1,120\nv,FOOD,2023Q2,120\nv,FOOD,2023Q3,130\nv,FOOD,2023Q4,130\nk,FOOD,2021Q1,100\nk,FOOD,2021Q2,100\nk,FOOD,2021Q3,100\nk,FOOD,2021Q4,100\nk,FOOD,2022Q1,80\nk,FOOD,2022Q2,80\nk,FOOD,2022Q3,80\nk,FOOD,2022Q4,80\nk,FOOD,2023Q1,165\nk,FOOD,2023Q2,165\nk,FOOD,2023Q3,179\nk,FOOD,2023Q4,179\nc,FOOD,2021Q1,1375000\nc,FOOD,2021Q2,1375000\nc,FOOD,2021Q3,1375000\nc,FOOD,2021Q4,1375000\nc,FOOD,2022Q1,1100000\nc,FOOD,2022Q2,1100000\nc,FOOD,2022Q3,1100000\nc,FOOD,2022Q4,1100000\nc,FOOD,2023Q1,1650000\nc,FOOD,2023Q2,1650000\nc,FOOD,2023Q3,1790000\nc,FOOD,2023Q4,1790000\na,FOOD,2021,400,400,5500000,1\na,FOOD,2022,440,320,4400000,0\na,FOOD,2023,500,688,6880000,1\ng,FOOD,3,13,0\nv,SERV,2021Q1,200\nv,SERV,2021Q2,200\nv,SERV,2021Q3,200\nv,SERV,2021Q4,200\nv,SERV,2022Q1,210\nv,SERV,2022Q2,210\nv,SERV,2022Q3,210\nv,SERV,2022Q4,210\nv,SERV,2023Q1,250\nv,SERV,2023Q2,250\nv,SERV,2023Q3,250\nv,SERV,2023Q4,250\nk,SERV,2021Q1,200\nk,SERV,2021Q2,200\nk,SERV,2021Q3,200\nk,SERV,2021Q4,200\nk,SERV,2022Q1,300\nk,SERV,2022Q2,300\nk,SERV,2022Q3,300\nk,SERV,2022Q4,300\nk,SERV,2023Q1,175\nk,SERV,2023Q2,175\nk,SERV,2023Q3,175\nk,SERV,2023Q4,175\nc,SERV,2021Q1,1400000\nc,SERV,2021Q2,1400000\nc,SERV,2021Q3,1400000\nc,SERV,2021Q4,1400000\nc,SERV,2022Q1,2100000\nc,SERV,2022Q2,2100000\nc,SERV,2022Q3,2100000\nc,SERV,2022Q4,2100000\nc,SERV,2023Q1,1750000\nc,SERV,2023Q2,1750000\nc,SERV,2023Q3,1750000\nc,SERV,2023Q4,1750000\na,SERV,2021,800,800,5600000,1\na,SERV,2022,840,1200,8400000,0\na,SERV,2023,1000,700,7000000,1\ng,SERV,3,13,0\nend,54\n",
        ),
        report: b"",
        status: 0,
    },
    BatchCase {
        name: "the same two leaves as roots",
        plan: b"start,2021\nreference,2022\nitem,FOOD,\nitem,SERV,\n",
        input: FOOD_AND_SERVICES,
        release: Some(
            b"release,54\nv,FOOD,2021Q1,100\nv,FOOD,2021Q2,100\nv,FOOD,2021Q3,100\nv,FOOD,2021Q4,100\nv,FOOD,2022Q1,110\nv,FOOD,2022Q2,110\nv,FOOD,2022Q3,110\nv,FOOD,2022Q4,110\nv,FOOD,2023Q1,120\nv,FOOD,2023Q2,120\nv,FOOD,2023Q3,130\nv,FOOD,2023Q4,130\nk,FOOD,2021Q1,100\nk,FOOD,2021Q2,100\nk,FOOD,2021Q3,100\nk,FOOD,2021Q4,100\nk,FOOD,2022Q1,80\nk,FOOD,2022Q2,80\nk,FOOD,2022Q3,80\nk,FOOD,2022Q4,80\nk,FOOD,2023Q1,165\nk,FOOD,2023Q2,165\nk,FOOD,2023Q3,179\nk,FOOD,2023Q4,179\nc,FOOD,2021Q1,1375000\nc,FOOD,2021Q2,1375000\nc,FOOD,2021Q3,1375000\nc,FOOD,2021Q4,1375000\nc,FOOD,2022Q1,1100000\nc,FOOD,2022Q2,1100000\nc,FOOD,2022Q3,1100000\nc,FOOD,2022Q4,1100000\nc,FOOD,2023Q1,1650000\nc,FOOD,2023Q2,1650000\nc,FOOD,2023Q3,1790000\nc,FOOD,2023Q4,1790000\na,FOOD,2021,400,400,5500000,1\na,FOOD,2022,440,320,4400000,0\na,FOOD,2023,500,688,6880000,1\ng,FOOD,3,13,0\nv,SERV,2021Q1,200\nv,SERV,2021Q2,200\nv,SERV,2021Q3,200\nv,SERV,2021Q4,200\nv,SERV,2022Q1,210\nv,SERV,2022Q2,210\nv,SERV,2022Q3,210\nv,SERV,2022Q4,210\nv,SERV,2023Q1,250\nv,SERV,2023Q2,250\nv,SERV,2023Q3,250\nv,SERV,2023Q4,250\nk,SERV,2021Q1,200\nk,SERV,2021Q2,200\nk,SERV,2021Q3,200\nk,SERV,2021Q4,200\nk,SERV,2022Q1,300\nk,SERV,2022Q2,300\nk,SERV,2022Q3,300\nk,SERV,2022Q4,300\nk,SERV,2023Q1,175\nk,SERV,2023Q2,175\nk,SERV,2023Q3,175\nk,SERV,2023Q4,175\nc,SERV,2021Q1,1400000\nc,SERV,2021Q2,1400000\nc,SERV,2021Q3,1400000\nc,SERV,2021Q4,1400000\nc,SERV,2022Q1,2100000\nc,SERV,2022Q2,2100000\nc,SERV,2022Q3,2100000\nc,SERV,2022Q4,2100000\nc,SERV,2023Q1,1750000\nc,SERV,2023Q2,1750000\nc,SERV,2023Q3,1750000\nc,SERV,2023Q4,1750000\na,SERV,2021,800,800,5600000,1\na,SERV,2022,840,1200,8400000,0\na,SERV,2023,1000,700,7000000,1\ng,SERV,3,13,0\nend,54\n",
        ),
        report: b"",
        status: 0,
    },
    BatchCase {
        name: "a first year whose quantities round to 0 is no base, for the leaf and for the sum",
        plan: b"start,2021\nreference,2022\nitem,TOTAL,\nitem,FOOD,TOTAL\nitem,SERV,TOTAL\n",
        input: b"ind,FOOD,2021Q1,100\nind,FOOD,2021Q2,100\nind,FOOD,2021Q3,100\nind,FOOD,2021Q4,100\nind,FOOD,2022Q1,100\nind,FOOD,2022Q2,100\nind,FOOD,2022Q3,100\nind,FOOD,2022Q4,100\nind,FOOD,2023Q1,100\nind,FOOD,2023Q2,100\nind,FOOD,2023Q3,100\nind,FOOD,2023Q4,100\nbench,FOOD,2021,400\nbench,FOOD,2022,400\nbench,FOOD,2023,400\nprice,FOOD,2021Q1,1000000000\nprice,FOOD,2021Q2,1000000000\nprice,FOOD,2021Q3,1000000000\nprice,FOOD,2021Q4,1000000000\nprice,FOOD,2022Q1,1000000\nprice,FOOD,2022Q2,1000000\nprice,FOOD,2022Q3,1000000\nprice,FOOD,2022Q4,1000000\nprice,FOOD,2023Q1,1000000\nprice,FOOD,2023Q2,1000000\nprice,FOOD,2023Q3,1000000\nprice,FOOD,2023Q4,1000000\nind,SERV,2021Q1,200\nind,SERV,2021Q2,200\nind,SERV,2021Q3,200\nind,SERV,2021Q4,200\nind,SERV,2022Q1,210\nind,SERV,2022Q2,210\nind,SERV,2022Q3,210\nind,SERV,2022Q4,210\nind,SERV,2023Q1,250\nind,SERV,2023Q2,250\nind,SERV,2023Q3,250\nind,SERV,2023Q4,250\nbench,SERV,2021,800\nbench,SERV,2022,840\nbench,SERV,2023,1000\nprice,SERV,2021Q1,1000000\nprice,SERV,2021Q2,1000000\nprice,SERV,2021Q3,1000000\nprice,SERV,2021Q4,1000000\nprice,SERV,2022Q1,700000\nprice,SERV,2022Q2,700000\nprice,SERV,2022Q3,700000\nprice,SERV,2022Q4,700000\nprice,SERV,2023Q1,1000000\nprice,SERV,2023Q2,1000000\nprice,SERV,2023Q3,1000000\nprice,SERV,2023Q4,1000000\n",
        release: Some(
            b"release,54\nv,TOTAL,2021Q1,300\nv,TOTAL,2021Q2,300\nv,TOTAL,2021Q3,300\nv,TOTAL,2021Q4,300\nv,TOTAL,2022Q1,310\nv,TOTAL,2022Q2,310\nv,TOTAL,2022Q3,310\nv,TOTAL,2022Q4,310\nv,TOTAL,2023Q1,350\nv,TOTAL,2023Q2,350\nv,TOTAL,2023Q3,350\nv,TOTAL,2023Q4,350\nk,TOTAL,2021Q1,nobase\nk,TOTAL,2021Q2,nobase\nk,TOTAL,2021Q3,nobase\nk,TOTAL,2021Q4,nobase\nk,TOTAL,2022Q1,nobase\nk,TOTAL,2022Q2,nobase\nk,TOTAL,2022Q3,nobase\nk,TOTAL,2022Q4,nobase\nk,TOTAL,2023Q1,275\nk,TOTAL,2023Q2,275\nk,TOTAL,2023Q3,275\nk,TOTAL,2023Q4,275\nc,TOTAL,2021Q1,nobase\nc,TOTAL,2021Q2,nobase\nc,TOTAL,2021Q3,nobase\nc,TOTAL,2021Q4,nobase\nc,TOTAL,2022Q1,nobase\nc,TOTAL,2022Q2,nobase\nc,TOTAL,2022Q3,nobase\nc,TOTAL,2022Q4,nobase\nc,TOTAL,2023Q1,2750000\nc,TOTAL,2023Q2,2750000\nc,TOTAL,2023Q3,2750000\nc,TOTAL,2023Q4,2750000\na,TOTAL,2021,1200,nobase,nobase,nobase\na,TOTAL,2022,1240,nobase,12400000,0\na,TOTAL,2023,1400,1100,11000000,1\nv,FOOD,2021Q1,100\nv,FOOD,2021Q2,100\nv,FOOD,2021Q3,100\nv,FOOD,2021Q4,100\nv,FOOD,2022Q1,100\nv,FOOD,2022Q2,100\nv,FOOD,2022Q3,100\nv,FOOD,2022Q4,100\nv,FOOD,2023Q1,100\nv,FOOD,2023Q2,100\nv,FOOD,2023Q3,100\nv,FOOD,2023Q4,100\nk,FOOD,2021Q1,nobase\nk,FOOD,2021Q2,nobase\nk,FOOD,2021Q3,nobase\nk,FOOD,2021Q4,nobase\nk,FOOD,2022Q1,nobase\nk,FOOD,2022Q2,nobase\nk,FOOD,2022Q3,nobase\nk,FOOD,2022Q4,nobase\nk,FOOD,2023Q1,100\nk,FOOD,2023Q2,100\nk,FOOD,2023Q3,100\nk,FOOD,2023Q4,100\nc,FOOD,2021Q1,nobase\nc,FOOD,2021Q2,nobase\nc,FOOD,2021Q3,nobase\nc,FOOD,2021Q4,nobase\nc,FOOD,2022Q1,nobase\nc,FOOD,2022Q2,nobase\nc,FOOD,2022Q3,nobase\nc,FOOD,2022Q4,nobase\nc,FOOD,2023Q1,1000000\nc,FOOD,2023Q2,1000000\nc,FOOD,2023Q3,1000000\nc,FOOD,2023Q4,1000000\na,FOOD,2021,400,nobase,nobase,nobase\na,FOOD,2022,400,nobase,4000000,0\na,FOOD,2023,400,400,4000000,1\ng,FOOD,3,13,0\nv,SERV,2021Q1,200\nv,SERV,2021Q2,200\nv,SERV,2021Q3,200\nv,SERV,2021Q4,200\nv,SERV,2022Q1,210\nv,SERV,2022Q2,210\nv,SERV,2022Q3,210\nv,SERV,2022Q4,210\nv,SERV,2023Q1,250\nv,SERV,2023Q2,250\nv,SERV,2023Q3,250\nv,SERV,2023Q4,250\nk,SERV,2021Q1,200\nk,SERV,2021Q2,200\nk,SERV,2021Q3,200\nk,SERV,2021Q4,200\nk,SERV,2022Q1,300\nk,SERV,2022Q2,300\nk,SERV,2022Q3,300\nk,SERV,2022Q4,300\nk,SERV,2023Q1,175\nk,SERV,2023Q2,175\nk,SERV,2023Q3,175\nk,SERV,2023Q4,175\nc,SERV,2021Q1,1400000\nc,SERV,2021Q2,1400000\nc,SERV,2021Q3,1400000\nc,SERV,2021Q4,1400000\nc,SERV,2022Q1,2100000\nc,SERV,2022Q2,2100000\nc,SERV,2022Q3,2100000\nc,SERV,2022Q4,2100000\nc,SERV,2023Q1,1750000\nc,SERV,2023Q2,1750000\nc,SERV,2023Q3,1750000\nc,SERV,2023Q4,1750000\na,SERV,2021,800,800,5600000,1\na,SERV,2022,840,1200,8400000,0\na,SERV,2023,1000,700,7000000,1\ng,SERV,3,13,0\nend,54\n",
        ),
        report: b"",
        status: 0,
    },
    BatchCase {
        name: "three quarters of a year are chained from the year before",
        plan: b"start,2021\nitem,RENT,\n",
        input: b"ind,RENT,2021Q1,100\nind,RENT,2021Q2,100\nind,RENT,2021Q3,100\nind,RENT,2021Q4,100\nind,RENT,2022Q1,160\nind,RENT,2022Q2,160\nind,RENT,2022Q3,160\nind,RENT,2022Q4,160\nind,RENT,2023Q1,99\nind,RENT,2023Q2,99\nind,RENT,2023Q3,99\nbench,RENT,2021,400\nbench,RENT,2022,640\nprice,RENT,2021Q1,1000000\nprice,RENT,2021Q2,1000000\nprice,RENT,2021Q3,1000000\nprice,RENT,2021Q4,1000000\nprice,RENT,2022Q1,1280000\nprice,RENT,2022Q2,1280000\nprice,RENT,2022Q3,1280000\nprice,RENT,2022Q4,1280000\nprice,RENT,2023Q1,1000000\nprice,RENT,2023Q2,1000000\nprice,RENT,2023Q3,1000000\n",
        release: Some(
            b"release,24\nv,RENT,2021Q1,100\nv,RENT,2021Q2,100\nv,RENT,2021Q3,100\nv,RENT,2021Q4,100\nv,RENT,2022Q1,160\nv,RENT,2022Q2,160\nv,RENT,2022Q3,160\nv,RENT,2022Q4,160\nv,RENT,2023Q1,99\nv,RENT,2023Q2,99\nv,RENT,2023Q3,99\nk,RENT,2021Q1,100\nk,RENT,2021Q2,100\nk,RENT,2021Q3,100\nk,RENT,2021Q4,100\nk,RENT,2022Q1,125\nk,RENT,2022Q2,125\nk,RENT,2022Q3,125\nk,RENT,2022Q4,125\nk,RENT,2023Q1,127\nk,RENT,2023Q2,127\nk,RENT,2023Q3,127\nc,RENT,2021Q1,1000000\nc,RENT,2021Q2,1000000\nc,RENT,2021Q3,1000000\nc,RENT,2021Q4,1000000\nc,RENT,2022Q1,1250000\nc,RENT,2022Q2,1250000\nc,RENT,2022Q3,1250000\nc,RENT,2022Q4,1250000\nc,RENT,2023Q1,992188\nc,RENT,2023Q2,992188\nc,RENT,2023Q3,992188\na,RENT,2021,400,400,4000000,0\na,RENT,2022,640,500,5000000,1\na,RENT,2023,missing,missing,missing,missing\ng,RENT,2,13,0\nend,24\n",
        ),
        report: b"",
        status: 0,
    },
    BatchCase {
        name: "the fourth quarter comes, and the quarters of the whole year share its level",
        plan: b"start,2021\nitem,RENT,\n",
        input: b"ind,RENT,2021Q1,100\nind,RENT,2021Q2,100\nind,RENT,2021Q3,100\nind,RENT,2021Q4,100\nind,RENT,2022Q1,160\nind,RENT,2022Q2,160\nind,RENT,2022Q3,160\nind,RENT,2022Q4,160\nind,RENT,2023Q1,99\nind,RENT,2023Q2,99\nind,RENT,2023Q3,99\nbench,RENT,2021,400\nbench,RENT,2022,640\nprice,RENT,2021Q1,1000000\nprice,RENT,2021Q2,1000000\nprice,RENT,2021Q3,1000000\nprice,RENT,2021Q4,1000000\nprice,RENT,2022Q1,1280000\nprice,RENT,2022Q2,1280000\nprice,RENT,2022Q3,1280000\nprice,RENT,2022Q4,1280000\nprice,RENT,2023Q1,1000000\nprice,RENT,2023Q2,1000000\nprice,RENT,2023Q3,1000000\nind,RENT,2023Q4,99\nprice,RENT,2023Q4,1000000\n",
        release: Some(
            b"release,26\nv,RENT,2021Q1,100\nv,RENT,2021Q2,100\nv,RENT,2021Q3,100\nv,RENT,2021Q4,100\nv,RENT,2022Q1,160\nv,RENT,2022Q2,160\nv,RENT,2022Q3,160\nv,RENT,2022Q4,160\nv,RENT,2023Q1,99\nv,RENT,2023Q2,99\nv,RENT,2023Q3,99\nv,RENT,2023Q4,99\nk,RENT,2021Q1,100\nk,RENT,2021Q2,100\nk,RENT,2021Q3,100\nk,RENT,2021Q4,100\nk,RENT,2022Q1,125\nk,RENT,2022Q2,125\nk,RENT,2022Q3,125\nk,RENT,2022Q4,125\nk,RENT,2023Q1,127\nk,RENT,2023Q2,127\nk,RENT,2023Q3,127\nk,RENT,2023Q4,127\nc,RENT,2021Q1,1000000\nc,RENT,2021Q2,1000000\nc,RENT,2021Q3,1000000\nc,RENT,2021Q4,1000000\nc,RENT,2022Q1,1250000\nc,RENT,2022Q2,1250000\nc,RENT,2022Q3,1250000\nc,RENT,2022Q4,1250000\nc,RENT,2023Q1,992188\nc,RENT,2023Q2,992188\nc,RENT,2023Q3,992187\nc,RENT,2023Q4,992187\na,RENT,2021,400,400,4000000,0\na,RENT,2022,640,500,5000000,1\na,RENT,2023,396,508,3968750,2\ng,RENT,2,13,0\nend,26\n",
        ),
        report: b"",
        status: 0,
    },
    BatchCase {
        name: "an item with a child takes no input, and has the sums of its leaves",
        plan: b"start,2021\nitem,TOTAL,\nitem,FOOD,TOTAL\n",
        input: b"ind,TOTAL,2021Q1,0\nind,FOOD,2021Q1,100\nind,FOOD,2021Q2,100\nind,FOOD,2021Q3,100\nind,FOOD,2021Q4,100\nbench,FOOD,2021,1000\nbench,TOTAL,2021,5\nprice,TOTAL,2021Q1,5\nrelease,TOTAL\ncert,TOTAL\n",
        release: Some(
            b"release,5\nv,TOTAL,2021Q1,250\nv,TOTAL,2021Q2,250\nv,TOTAL,2021Q3,250\nv,TOTAL,2021Q4,250\nk,TOTAL,2021Q1,missing\nk,TOTAL,2021Q2,missing\nk,TOTAL,2021Q3,missing\nk,TOTAL,2021Q4,missing\nc,TOTAL,2021Q1,missing\nc,TOTAL,2021Q2,missing\nc,TOTAL,2021Q3,missing\nc,TOTAL,2021Q4,missing\na,TOTAL,2021,1000,missing,10000000,0\nv,FOOD,2021Q1,250\nv,FOOD,2021Q2,250\nv,FOOD,2021Q3,250\nv,FOOD,2021Q4,250\nk,FOOD,2021Q1,missing\nk,FOOD,2021Q2,missing\nk,FOOD,2021Q3,missing\nk,FOOD,2021Q4,missing\nc,FOOD,2021Q1,missing\nc,FOOD,2021Q2,missing\nc,FOOD,2021Q3,missing\nc,FOOD,2021Q4,missing\na,FOOD,2021,1000,missing,10000000,0\ng,FOOD,1,12,0\nend,5\n",
        ),
        report: b"1,no,unknown\n7,no,unknown\n8,no,unknown\n",
        status: 0,
    },
    BatchCase {
        name: "leaves with fewer quarters than others, and an item whose leaf has none",
        plan: b"start,2021\nitem,TOTAL,\nitem,GOODS,TOTAL\nitem,FOOD,GOODS\nitem,FUEL,GOODS\nitem,REST,TOTAL\nitem,RENT,REST\n",
        input: b"ind,FOOD,2021Q1,100\nind,FOOD,2021Q2,100\nind,FOOD,2021Q3,100\nind,FOOD,2021Q4,100\nind,FOOD,2022Q1,110\nbench,FOOD,2021,1000\nind,FUEL,2021Q1,100\nind,FUEL,2021Q2,100\nind,FUEL,2021Q3,100\nind,FUEL,2021Q4,100\nbench,FUEL,2021,-400\n",
        release: Some(
            b"release,11\nv,TOTAL,2021Q1,missing\nv,TOTAL,2021Q2,missing\nv,TOTAL,2021Q3,missing\nv,TOTAL,2021Q4,missing\nv,TOTAL,2022Q1,missing\nk,TOTAL,2021Q1,missing\nk,TOTAL,2021Q2,missing\nk,TOTAL,2021Q3,missing\nk,TOTAL,2021Q4,missing\nk,TOTAL,2022Q1,missing\nc,TOTAL,2021Q1,missing\nc,TOTAL,2021Q2,missing\nc,TOTAL,2021Q3,missing\nc,TOTAL,2021Q4,missing\nc,TOTAL,2022Q1,missing\na,TOTAL,2021,missing,missing,missing,missing\na,TOTAL,2022,missing,missing,missing,missing\nv,GOODS,2021Q1,150\nv,GOODS,2021Q2,150\nv,GOODS,2021Q3,150\nv,GOODS,2021Q4,150\nv,GOODS,2022Q1,missing\nk,GOODS,2021Q1,missing\nk,GOODS,2021Q2,missing\nk,GOODS,2021Q3,missing\nk,GOODS,2021Q4,missing\nk,GOODS,2022Q1,missing\nc,GOODS,2021Q1,missing\nc,GOODS,2021Q2,missing\nc,GOODS,2021Q3,missing\nc,GOODS,2021Q4,missing\nc,GOODS,2022Q1,missing\na,GOODS,2021,600,missing,6000000,0\na,GOODS,2022,missing,missing,missing,missing\nv,FOOD,2021Q1,250\nv,FOOD,2021Q2,250\nv,FOOD,2021Q3,250\nv,FOOD,2021Q4,250\nv,FOOD,2022Q1,275\nk,FOOD,2021Q1,missing\nk,FOOD,2021Q2,missing\nk,FOOD,2021Q3,missing\nk,FOOD,2021Q4,missing\nk,FOOD,2022Q1,missing\nc,FOOD,2021Q1,missing\nc,FOOD,2021Q2,missing\nc,FOOD,2021Q3,missing\nc,FOOD,2021Q4,missing\nc,FOOD,2022Q1,missing\na,FOOD,2021,1000,missing,10000000,0\na,FOOD,2022,missing,missing,missing,missing\ng,FOOD,1,12,0\nv,FUEL,2021Q1,-100\nv,FUEL,2021Q2,-100\nv,FUEL,2021Q3,-100\nv,FUEL,2021Q4,-100\nk,FUEL,2021Q1,missing\nk,FUEL,2021Q2,missing\nk,FUEL,2021Q3,missing\nk,FUEL,2021Q4,missing\nc,FUEL,2021Q1,missing\nc,FUEL,2021Q2,missing\nc,FUEL,2021Q3,missing\nc,FUEL,2021Q4,missing\na,FUEL,2021,-400,missing,nolink,nolink\ng,FUEL,1,13,0\nend,11\n",
        ),
        report: b"",
        status: 0,
    },
    BatchCase {
        name: "the first mark in the order missing, nobase, range stands in a sum",
        plan: b"start,2021\nitem,TOTAL,\nitem,LOW,TOTAL\nitem,GOLD,LOW\nitem,FOOD,LOW\nitem,FUEL,TOTAL\n",
        input: b"ind,GOLD,2021Q1,1\nind,GOLD,2021Q2,1\nind,GOLD,2021Q3,1\nind,GOLD,2021Q4,1\nbench,GOLD,2021,8000000000\nprice,GOLD,2021Q1,1\nprice,GOLD,2021Q2,1\nprice,GOLD,2021Q3,1\nprice,GOLD,2021Q4,1\nind,FOOD,2021Q1,100\nind,FOOD,2021Q2,100\nind,FOOD,2021Q3,100\nind,FOOD,2021Q4,100\nbench,FOOD,2021,400\nprice,FOOD,2021Q1,1000000000\nprice,FOOD,2021Q2,1000000000\nprice,FOOD,2021Q3,1000000000\nprice,FOOD,2021Q4,1000000000\nind,FUEL,2021Q1,100\nind,FUEL,2021Q2,100\nind,FUEL,2021Q3,100\nind,FUEL,2021Q4,100\nbench,FUEL,2021,400\n",
        release: Some(
            b"release,23\nv,TOTAL,2021Q1,2000000200\nv,TOTAL,2021Q2,2000000200\nv,TOTAL,2021Q3,2000000200\nv,TOTAL,2021Q4,2000000200\nk,TOTAL,2021Q1,missing\nk,TOTAL,2021Q2,missing\nk,TOTAL,2021Q3,missing\nk,TOTAL,2021Q4,missing\nc,TOTAL,2021Q1,missing\nc,TOTAL,2021Q2,missing\nc,TOTAL,2021Q3,missing\nc,TOTAL,2021Q4,missing\na,TOTAL,2021,8000000800,missing,80000008000000,0\nv,LOW,2021Q1,2000000100\nv,LOW,2021Q2,2000000100\nv,LOW,2021Q3,2000000100\nv,LOW,2021Q4,2000000100\nk,LOW,2021Q1,nobase\nk,LOW,2021Q2,nobase\nk,LOW,2021Q3,nobase\nk,LOW,2021Q4,nobase\nc,LOW,2021Q1,nobase\nc,LOW,2021Q2,nobase\nc,LOW,2021Q3,nobase\nc,LOW,2021Q4,nobase\na,LOW,2021,8000000400,nobase,80000004000000,0\nv,GOLD,2021Q1,2000000000\nv,GOLD,2021Q2,2000000000\nv,GOLD,2021Q3,2000000000\nv,GOLD,2021Q4,2000000000\nk,GOLD,2021Q1,range\nk,GOLD,2021Q2,range\nk,GOLD,2021Q3,range\nk,GOLD,2021Q4,range\nc,GOLD,2021Q1,range\nc,GOLD,2021Q2,range\nc,GOLD,2021Q3,range\nc,GOLD,2021Q4,range\na,GOLD,2021,8000000000,range,80000000000000,0\ng,GOLD,1,3,0\nv,FOOD,2021Q1,100\nv,FOOD,2021Q2,100\nv,FOOD,2021Q3,100\nv,FOOD,2021Q4,100\nk,FOOD,2021Q1,nobase\nk,FOOD,2021Q2,nobase\nk,FOOD,2021Q3,nobase\nk,FOOD,2021Q4,nobase\nc,FOOD,2021Q1,nobase\nc,FOOD,2021Q2,nobase\nc,FOOD,2021Q3,nobase\nc,FOOD,2021Q4,nobase\na,FOOD,2021,400,nobase,4000000,0\ng,FOOD,1,13,0\nv,FUEL,2021Q1,100\nv,FUEL,2021Q2,100\nv,FUEL,2021Q3,100\nv,FUEL,2021Q4,100\nk,FUEL,2021Q1,missing\nk,FUEL,2021Q2,missing\nk,FUEL,2021Q3,missing\nk,FUEL,2021Q4,missing\nc,FUEL,2021Q1,missing\nc,FUEL,2021Q2,missing\nc,FUEL,2021Q3,missing\nc,FUEL,2021Q4,missing\na,FUEL,2021,400,missing,4000000,0\ng,FUEL,1,13,0\nend,23\n",
        ),
        report: b"",
        status: 0,
    },
    BatchCase {
        name: "three quarters and a benchmark",
        plan: FOOD_PLAN,
        input: b"ind,FOOD,2021Q1,100\nind,FOOD,2021Q2,100\nind,FOOD,2021Q3,100\nbench,FOOD,2021,1000\n",
        release: Some(
            b"release,4\nv,FOOD,2021Q1,missing\nv,FOOD,2021Q2,missing\nv,FOOD,2021Q3,missing\nk,FOOD,2021Q1,missing\nk,FOOD,2021Q2,missing\nk,FOOD,2021Q3,missing\nc,FOOD,2021Q1,missing\nc,FOOD,2021Q2,missing\nc,FOOD,2021Q3,missing\na,FOOD,2021,missing,missing,missing,missing\nend,4\n",
        ),
        report: b"",
        status: 0,
    },
    BatchCase {
        name: "four quarters without a benchmark, and an item without quarters",
        plan: b"start,2021\nitem,FOOD,\nitem,FUEL,\n",
        input: b"ind,FOOD,2021Q1,100\nind,FOOD,2021Q2,100\nind,FOOD,2021Q3,100\nind,FOOD,2021Q4,100\nind,FUEL,2021Q2,5\n",
        release: Some(
            b"release,5\nv,FOOD,2021Q1,missing\nv,FOOD,2021Q2,missing\nv,FOOD,2021Q3,missing\nv,FOOD,2021Q4,missing\nk,FOOD,2021Q1,missing\nk,FOOD,2021Q2,missing\nk,FOOD,2021Q3,missing\nk,FOOD,2021Q4,missing\nc,FOOD,2021Q1,missing\nc,FOOD,2021Q2,missing\nc,FOOD,2021Q3,missing\nc,FOOD,2021Q4,missing\na,FOOD,2021,missing,missing,missing,missing\nend,5\n",
        ),
        report: b"",
        status: 0,
    },
    BatchCase {
        name: "the last value counts, and each line is counted",
        plan: FOOD_PLAN,
        input: b"bench,FOOD,2021,7\nind,FOOD,2021Q4,9\nind,FOOD,2021Q1,100\nind,FOOD,2021Q2,100\nind,FOOD,2021Q3,100\nind,FOOD,2021Q4,100\nbench,FOOD,2021,1000\nbench,FOOD,2021,1000\n",
        release: Some(
            b"release,8\nv,FOOD,2021Q1,250\nv,FOOD,2021Q2,250\nv,FOOD,2021Q3,250\nv,FOOD,2021Q4,250\nk,FOOD,2021Q1,missing\nk,FOOD,2021Q2,missing\nk,FOOD,2021Q3,missing\nk,FOOD,2021Q4,missing\nc,FOOD,2021Q1,missing\nc,FOOD,2021Q2,missing\nc,FOOD,2021Q3,missing\nc,FOOD,2021Q4,missing\na,FOOD,2021,1000,missing,10000000,0\ng,FOOD,1,12,0\nend,8\n",
        ),
        report: b"",
        status: 0,
    },
    BatchCase {
        name: "the last line twice",
        plan: FOOD_PLAN,
        input: b"ind,FOOD,2021Q1,100\nind,FOOD,2021Q2,100\nind,FOOD,2021Q3,100\nind,FOOD,2021Q4,100\nbench,FOOD,2021,1000\nbench,FOOD,2021,1000\n",
        release: Some(
            b"release,6\nv,FOOD,2021Q1,250\nv,FOOD,2021Q2,250\nv,FOOD,2021Q3,250\nv,FOOD,2021Q4,250\nk,FOOD,2021Q1,missing\nk,FOOD,2021Q2,missing\nk,FOOD,2021Q3,missing\nk,FOOD,2021Q4,missing\nc,FOOD,2021Q1,missing\nc,FOOD,2021Q2,missing\nc,FOOD,2021Q3,missing\nc,FOOD,2021Q4,missing\na,FOOD,2021,1000,missing,10000000,0\ng,FOOD,1,12,0\nend,6\n",
        ),
        report: b"",
        status: 0,
    },
    BatchCase {
        name: "a plan without items, and an empty input",
        plan: b"start,2021\n",
        input: b"",
        release: Some(b"release,0\nend,0\n"),
        report: b"",
        status: 0,
    },
    BatchCase {
        name: "each cause of a refused line, in its order",
        plan: FOOD_PLAN,
        input: b"ind,FOOD,2021Q1,0\nind,FOOD,2021Q1,-1\nind,FOOD,2021Q1,1000000001\nind,RENT,2021Q1,0\nind,FOOD,2085Q1,0\nind,FOOD,2085Q1,5\nbench,FOOD,2021,1000000000001\nprice,FOOD,2021Q1,0\nind,FOOD,2021Q5,5\nind,FOOD,2021,5\naaaaaaaaaaaaaaaaaaaaaaaaaaaaaaaaaaaaaaaaaaaaaaaaaaaaaaaaaaaaaaaaaaaaaaaaaaaaaaaaaaaaaaaaaaaaaaaaaaaaaaaaaaaaaaaaaaaaaaaaaaaaaaaaaaaaaaaaaaaaaaaaaaaaaaaaaaaaaaaaaaaaaaaaaaaaaaaaaaaaaaaaaaaaaaaaaaaaaaaaaaaaaaaaaaaaaaaaaaaaaaaaaaaaaaaaaaaaaaaaaaaaaaaaaaaaaaaaa\nind,FOOD,2084-Q4,1000000000\nbench,FOOD,2021,-1000000000000\n\n# note\ncert,FOOD\n",
        release: Some(b"release,2\nend,2\n"),
        report: b"1,no,zero\n2,no,range\n3,no,range\n4,no,unknown\n5,no,zero\n6,no,range\n7,no,range\n8,no,range\n9,no,form\n10,no,form\n11,no,long\n",
        status: 0,
    },
    BatchCase {
        name: "benchmarks out of range, and of no year and no item of the plan",
        plan: FOOD_PLAN,
        input: b"bench,FOOD,2022,1000000000001\nbench,FOOD,2085,5\nbench,RENT,2022,5\nbench,FOOD,2020,5\nbench,FOOD,2084,5\nbench,FOOD,2021,0\n",
        release: Some(b"release,2\nend,2\n"),
        report: b"1,no,range\n2,no,range\n3,no,unknown\n4,no,range\n",
        status: 0,
    },
    BatchCase {
        name: "every spelling of a line",
        plan: b"\xEF\xBB\xBF# accounts\r\nstart,2021\r\n\r\nitem,\"FOOD\",",
        input: b"\xEF\xBB\xBF# note\r\n\nind,FOOD,2021Q1,100\r\nind,\"FOOD\",2021-q2,0100,16\n\"ind\",FOOD,2021q3,\"100\"\nprice,FOOD,2021Q1,1000000\n# a \r comment\nind,FOOD,2021-Q4,100,1\nind,FOOD,2021Q1,-0\nprice,FOOD,2021Q1,-0\n\xEF\xBB\xBFbench,FOOD,2021,7\nbench,FOOD,2021,\"1000",
        release: Some(
            b"release,7\nv,FOOD,2021Q1,250\nv,FOOD,2021Q2,250\nv,FOOD,2021Q3,250\nv,FOOD,2021Q4,250\nk,FOOD,2021Q1,missing\nk,FOOD,2021Q2,missing\nk,FOOD,2021Q3,missing\nk,FOOD,2021Q4,missing\nc,FOOD,2021Q1,missing\nc,FOOD,2021Q2,missing\nc,FOOD,2021Q3,missing\nc,FOOD,2021Q4,missing\na,FOOD,2021,1000,missing,10000000,0\ng,FOOD,1,12,0\nend,7\n",
        ),
        report: b"9,no,zero\n10,no,range\n",
        status: 0,
    },
    BatchCase {
        name: "lines that ask are passed over, whatever the name",
        plan: FOOD_PLAN,
        input: b"release\nrelease,FOOD\nrelease,RENT\nrelease,\ncert,FOOD\ncert,a b\nsync\r\nind,FOOD,2021Q1,1\n",
        release: Some(
            b"release,1\nv,FOOD,2021Q1,missing\nk,FOOD,2021Q1,missing\nc,FOOD,2021Q1,missing\na,FOOD,2021,missing,missing,missing,missing\nend,1\n",
        ),
        report: b"",
        status: 0,
    },
    BatchCase {
        name: "lines of no form",
        plan: FOOD_PLAN,
        input: b"sync,1\ncert\nrelease,FOOD,1\nind,FOOD,2021Q1,1,0\nind,FOOD,2021Q1,1,17\nind,FOOD,2021Q1,1,x\nind,FOOD,2021Q1,1,1,1\nind,FOOD,2021Q1\nind,FO\rOD,2021Q1,1\n \nIND,FOOD,2021Q1,1\nind,FOOD,2021Q1,+1\nind,FOOD,2021Q1,\nind,FOOD,2021Q1, 1\nbench,FOOD,2021Q1,1\nind,FO OD,2021Q1,1\nind,,2021Q1,1\nind,FOOD,2021Q1,\"5\n",
        release: Some(
            b"release,1\nv,FOOD,2021Q1,missing\nk,FOOD,2021Q1,missing\nc,FOOD,2021Q1,missing\na,FOOD,2021,missing,missing,missing,missing\nend,1\n",
        ),
        report: b"1,no,form\n2,no,form\n3,no,form\n4,no,form\n5,no,form\n6,no,form\n7,no,form\n8,no,form\n9,no,form\n10,no,form\n11,no,form\n12,no,form\n13,no,form\n14,no,form\n15,no,form\n16,no,unknown\n17,no,unknown\n",
        status: 0,
    },
];
