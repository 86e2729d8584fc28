/// The version of the program, and the logic in which it is proved, the line of the file `TOOLCHAIN`.
pub const VERSION: &str = "\
1.6.0
proved in logic dac8208d650f15bf";
