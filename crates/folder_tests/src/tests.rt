mod folders;
mod refusing;
