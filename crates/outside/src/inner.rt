// For programs that do the same with each file that is named. Callers show that what they hand over may be called.
use super::{has_argument, open_argument, print_argument};
use std::io;
use std::rt::{Env, Files};

// Goes over the files that the arguments name, each under its name: `run` is given one after another.
pub fn each_file<R: Env + Files + Print, F: FnMut(&R, &mut R::File) -> io::Result<()>>(
    rt: &R,
    mut run: F,
) -> io::Result<()>
    requires { F.IsAlwaysCallable run }
{
    for i in 1..usize::MAX {
        if !has_argument(rt, i) {
            break;
        }
        print!(rt; "# ")?;
        print_argument(rt, i)?;
        println!(rt)?;
        match open_argument(rt, i) {
            Err(_) => println!(rt; "cannot be read")?,
            Ok(mut file) => run(rt, &mut file)?,
        }
    }
    Ok(())
}
