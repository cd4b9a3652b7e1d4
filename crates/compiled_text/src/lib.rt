//! For tests: a program in the layout of a compiler.
#![tactic(auto)]

/// A class as a compiler lays it out, over the stand-ins for Java's own classes.
pub const AS_COMPILED: &str = "public class Main extends java.lang.Object
{
    public void <init>()
    {
        Main r0;
        r0 := @this: Main;
        specialinvoke r0.<java.lang.Object: void <init>()>();
        return;
    }
    public static void main(java.lang.String[])
    {
        java.lang.String[] r0;
        java.io.PrintStream $r1;
        java.lang.StringBuilder $r2, $r3;
        java.lang.String $r4;
        r0 := @parameter0: java.lang.String[];
        $r1 = <java.lang.System: java.io.PrintStream out>;
        $r2 = new java.lang.StringBuilder;
        specialinvoke $r2.<java.lang.StringBuilder: void <init>()>();
        $r3 = virtualinvoke $r2.<java.lang.StringBuilder: java.lang.StringBuilder append(java.lang.String)>(\"a\\n\");
        $r4 = virtualinvoke $r3.<java.lang.StringBuilder: java.lang.String toString()>();
        virtualinvoke $r1.<java.io.PrintStream: void println(java.lang.String)>($r4);
        return;
    }
}
";
