// Jobs as texts of every key.
use job_file::Job;
use job_writer::plain_job;

const JOB: &str =
    "scale = '1:20'\nversion = 2\noutputs = ['dxf', 'hpgl']\nangle = 'third'\nsheet = 'A2'\nlayout = 'portrait'\nunit = 'inch'\ndecimals = 2\ncrease = 'coarse'\ntitle = 'Träger \"A\\B\", größer'\n[[view]]\ntoward = [1, -2, 9]\n[[view]]\nname = 'below'\n[[view]]\nfrom = 'low'\nat = -1_250\ncut = 'y'\n";

const PLAIN: &str = "version = 2
decimals = 2
angle = \"third\"
sheet = \"A2\"
scale = \"1:20\"
crease = \"coarse\"
title = \"Träger \\\"A\\\\B\\\", größer\"
outputs = [\"dxf\", \"hpgl\"]
unit = \"inch\"
layout = \"portrait\"

[[view]]
toward = [1, -2, 9]

[[view]]
name = \"below\"

[[view]]
cut = \"y\"
at = -1250
from = \"low\"
";

const USUAL: &str = "version = 2
decimals = 3
angle = \"first\"
sheet = \"A3\"
scale = \"fit\"
crease = \"normal\"
title = \"\"
outputs = []
unit = \"mm\"
layout = \"landscape\"

[[view]]
name = \"front\"

[[view]]
name = \"above\"

[[view]]
name = \"left\"
";

#[test]
fn plain_texts_of_jobs(rt: HostRuntime) {
    for (given, plain) in [(JOB, PLAIN), ("", USUAL), (PLAIN, PLAIN)] {
        match Job::read(rt.alloc(), given.as_bytes()) {
            Ok(job) => match plain_job(rt.alloc(), &job) {
                Ok(text) => assert_eq!(rt; text.as_str(), plain),
                Err(_) => panic!(rt; "no memory"),
            },
            Err(_) => panic!(rt; "no job"),
        }
    }
}
