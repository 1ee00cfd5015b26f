//! Rows of printed certificates.

/// An input for the plan of one item, and the certificate of the item that is printed behind it.
pub struct CertificateCase {
    /// What the row shows.
    pub name: &'static str,
    /// The bytes of the input.
    pub input: &'static [u8],
    /// The certificate, or the one line of an item without a benchmarked year.
    pub text: &'static [u8],
}

/// The certificates of several inputs, all accepted, for the plan `FOOD_PLAN`.
pub fn certificates() -> &'static [CertificateCase] {
    &CERTIFICATES
}

static CERTIFICATES: [CertificateCase; 6] = [
    CertificateCase {
        name: "two benchmarked years",
        input: b"ind,FOOD,2021Q1,100\nind,FOOD,2021Q2,100\nind,FOOD,2021Q3,100\nind,FOOD,2021Q4,100\nind,FOOD,2022Q1,100\nind,FOOD,2022Q2,100\nind,FOOD,2022Q3,100\nind,FOOD,2022Q4,100\nbench,FOOD,2021,1000\nbench,FOOD,2022,1400\n",
        text: b"cert,FOOD,10\nscale,12\nstart,2021\ni,2021Q1,100\ni,2021Q2,100\ni,2021Q3,100\ni,2021Q4,100\ni,2022Q1,100\ni,2022Q2,100\ni,2022Q3,100\ni,2022Q4,100\nb,2021,1000\nb,2022,1400\nx,2021Q1,227\nx,2021Q2,236\nx,2021Q3,255\nx,2021Q4,282\nx,2022Q1,318\nx,2022Q2,345\nx,2022Q3,364\nx,2022Q4,373\nu,2021,363636363636\ngap,163636363636363636364\nend\n",
    },
    CertificateCase {
        name: "one benchmarked year, and so no multiplier",
        input: b"ind,FOOD,2021Q1,100\nind,FOOD,2021Q2,100\nind,FOOD,2021Q3,100\nind,FOOD,2021Q4,100\nbench,FOOD,2021,1000\n",
        text: b"cert,FOOD,5\nscale,12\nstart,2021\ni,2021Q1,100\ni,2021Q2,100\ni,2021Q3,100\ni,2021Q4,100\nb,2021,1000\nx,2021Q1,250\nx,2021Q2,250\nx,2021Q3,250\nx,2021Q4,250\ngap,0\nend\n",
    },
    CertificateCase {
        name: "two benchmarked years, and a quarter after them",
        input: b"ind,FOOD,2021Q1,100\nind,FOOD,2021Q2,100\nind,FOOD,2021Q3,100\nind,FOOD,2021Q4,100\nind,FOOD,2022Q1,100\nind,FOOD,2022Q2,100\nind,FOOD,2022Q3,100\nind,FOOD,2022Q4,100\nind,FOOD,2023Q1,110\nbench,FOOD,2021,1000\nbench,FOOD,2022,1400\n",
        text: b"cert,FOOD,11\nscale,12\nstart,2021\ni,2021Q1,100\ni,2021Q2,100\ni,2021Q3,100\ni,2021Q4,100\ni,2022Q1,100\ni,2022Q2,100\ni,2022Q3,100\ni,2022Q4,100\ni,2023Q1,110\nb,2021,1000\nb,2022,1400\nx,2021Q1,227\nx,2021Q2,236\nx,2021Q3,255\nx,2021Q4,282\nx,2022Q1,318\nx,2022Q2,345\nx,2022Q3,364\nx,2022Q4,373\nx,2023Q1,410\nu,2021,363636363636\ngap,171074380169256198348\nend\n",
    },
    CertificateCase {
        name: "a benchmark that waits stands in no certificate",
        input: b"ind,FOOD,2021Q1,1\nind,FOOD,2021Q2,1\nind,FOOD,2021Q3,1\nind,FOOD,2021Q4,1\nbench,FOOD,2021,-10\nbench,FOOD,2022,7\n",
        text: b"cert,FOOD,6\nscale,12\nstart,2021\ni,2021Q1,1\ni,2021Q2,1\ni,2021Q3,1\ni,2021Q4,1\nb,2021,-10\nx,2021Q1,-2\nx,2021Q2,-2\nx,2021Q3,-3\nx,2021Q4,-3\ngap,1000000000000000000000000\nend\n",
    },
    CertificateCase {
        name: "benchmarks that start late, have a hole and stop early",
        input: b"ind,FOOD,2021Q1,104\nind,FOOD,2021Q2,97\nind,FOOD,2021Q3,110\nind,FOOD,2021Q4,120\nind,FOOD,2022Q1,103\nind,FOOD,2022Q2,99\nind,FOOD,2022Q3,112\nind,FOOD,2022Q4,125\nind,FOOD,2023Q1,108\nind,FOOD,2023Q2,101\nind,FOOD,2023Q3,118\nind,FOOD,2023Q4,131\nind,FOOD,2024Q1,112\nind,FOOD,2024Q2,107\nind,FOOD,2024Q3,121\nind,FOOD,2024Q4,138\nind,FOOD,2025Q1,120\nind,FOOD,2025Q2,113\nind,FOOD,2025Q3,129\nind,FOOD,2025Q4,149\nind,FOOD,2026Q1,131\nind,FOOD,2026Q2,125\nbench,FOOD,2022,1050\nbench,FOOD,2024,1236\nbench,FOOD,2026,9999\n",
        text: b"cert,FOOD,25\nscale,12\nstart,2021\ni,2021Q1,104\ni,2021Q2,97\ni,2021Q3,110\ni,2021Q4,120\ni,2022Q1,103\ni,2022Q2,99\ni,2022Q3,112\ni,2022Q4,125\ni,2023Q1,108\ni,2023Q2,101\ni,2023Q3,118\ni,2023Q4,131\ni,2024Q1,112\ni,2024Q2,107\ni,2024Q3,121\ni,2024Q4,138\ni,2025Q1,120\ni,2025Q2,113\ni,2025Q3,129\ni,2025Q4,149\ni,2026Q1,131\ni,2026Q2,125\nb,2022,1050\nb,2024,1236\nx,2021Q1,247\nx,2021Q2,230\nx,2021Q3,261\nx,2021Q4,285\nx,2022Q1,244\nx,2022Q2,236\nx,2022Q3,268\nx,2022Q4,302\nx,2023Q1,264\nx,2023Q2,250\nx,2023Q3,295\nx,2023Q4,331\nx,2024Q1,287\nx,2024Q2,276\nx,2024Q3,314\nx,2024Q4,359\nx,2025Q1,312\nx,2025Q2,294\nx,2025Q3,336\nx,2025Q4,388\nx,2026Q1,341\nx,2026Q2,325\nu,2022,28772785147\ngap,277844005374205572767\nend\n",
    },
    CertificateCase {
        name: "no benchmarked year",
        input: b"ind,FOOD,2021Q1,100\nind,FOOD,2021Q2,100\nind,FOOD,2021Q3,100\nbench,FOOD,2021,1000\n",
        text: b"nocert,FOOD,4\n",
    },
];
